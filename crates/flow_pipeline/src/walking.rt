ghost use Rattle.std.specs.Prelude.{◌≡◌, ◌++◌, map, IfOk, OnOk};
ghost use Rattle.flow_pipeline.specs.Connections.{is_known, note};
ghost use Rattle.flow_pipeline.specs.Course.{stepped, seen_at};
ghost use Rattle.flow_pipeline.specs.CourseViews.{course_of};
ghost use Rattle.flow_tables.specs.Lookup.{lookup};
ghost use Rattle.flow_pipeline.specs.Views.{way_of, visited};
ghost use Rattle.flow_pipeline.specs.Way.{goes_through};
ghost use Rattle.flow_pipeline.specs.Walk.{walk, all_visits};

use crate::conns::Conns;
use crate::course::Course;
use crate::way::{Visit, Way};
use cl_types::{List, NoMemory, Packet};
use flow_entries::Table;
use flow_tables::Tables;
use std::alloc::Global;

/// All tables, in the order in which packets pass them.
const TABLES: [Table; 14] = [
    Table::SpoofGuard,
    Table::ConntrackState,
    Table::AntreaPolicyEgressRule,
    Table::EgressRule,
    Table::EgressDefaultRule,
    Table::EgressMetric,
    Table::L3Forwarding,
    Table::Snat,
    Table::AntreaPolicyIngressRule,
    Table::IngressRule,
    Table::IngressDefaultRule,
    Table::IngressMetric,
    Table::ConntrackCommit,
    Table::Output,
];

// After this table, which the walk may not lead to.
fn stepped<'t>(
    t: &'t Tables,
    known: bool,
    p: &Packet,
    course: Course<'t>,
    table: Table,
) -> Course<'t>
    ensures { course_of result ≡ stepped (λ u skip. lookup t.now u p.now known skip) (course_of course.entry) table }
{
    if course.leads_to(table) {
        course.passed_by(table, t.lookup(table, p, known, course.skip))
    } else {
        course
    }
}

/// The way of a packet through the tables. It does not allocate.
pub fn route<'t>(t: &'t Tables, k: &Conns, p: &Packet) -> Way<'t>
    ensures { way_of result ≡ walk t.now (is_known k.now p.now) p.now }
{
    let known = k.known(p);
    let mut course = Course::start();
    for table in TABLES {
        course = stepped(t, known, p, course, table);
    }
    course.concluded()
}

/// The way of a packet through the tables. Its connection is noted where it is let through. It does not
/// allocate.
pub fn walk<'t>(t: &'t Tables, k: &mut Conns, p: &Packet) -> Way<'t>
    ensures way { way_of result ≡ walk t.now (is_known k.old p.now) p.now }
    ensures connections { let end = (walk t.now (is_known k.old p.now) p.now).end in
        k.new ≡ note k.old p.now (goes_through end) }
{
    let way = route(t, k, p);
    k.note(p, way.end.goes_through());
    way
}

// After this table, with the visit of it where the walk leads to it and hits something there.
fn seen_at<'t>(
    t: &'t Tables,
    known: bool,
    p: &Packet,
    course: Course<'t>,
    table: Table,
    seen: &mut Vec<Visit<'t>>,
) -> Result<Course<'t>, NoMemory>
    ensures course { IfOk result (λ c. course_of c ≡ stepped (λ u skip. lookup t.now u p.now known skip) (course_of course.entry) table) }
    ensures seen { OnOk result (map visited seen.new.items ≡ map visited seen.old.items ++ seen_at (λ u skip. lookup t.now u p.now known skip) (course_of course.entry) table) }
{
    if !course.leads_to(table) {
        return Ok(course);
    }
    let hit = t.lookup(table, p, known, course.skip);
    if let Some(flow) = hit {
        seen.push(Visit { table, flow })?;
    }
    Ok(course.passed_by(table, hit))
}

/// The way of a packet through the tables, and the tables that it passes with its hits in them.
pub fn route_seen<'t>(
    alloc: Global,
    t: &'t Tables,
    k: &Conns,
    p: &Packet,
) -> Result<(Way<'t>, List<Visit<'t>>), NoMemory>
    ensures way { IfOk result (λ r. way_of r.0 ≡ walk t.now (is_known k.now p.now) p.now) }
    ensures visits { IfOk result (λ r. map visited r.1 ≡ all_visits t.now (is_known k.now p.now) p.now) }
{
    let known = k.known(p);
    let mut course = Course::start();
    let mut seen = Vec::new(alloc);
    for table in TABLES {
        course = seen_at(t, known, p, course, table, &mut seen)?;
    }
    Ok((course.concluded(), List::of(seen)))
}
