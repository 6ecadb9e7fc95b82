//! What is known of a walk after some of its tables.
ghost use Rattle.std.specs.Prelude.{◌≡◌, ◌&&◌, ◌||◌, not, Some, None, map, Option};
ghost use Rattle.std.specs.Option.{option_map, option_or};
ghost use Rattle.cl_types.specs.Judgement.{judgement_of};
ghost use Rattle.flow_pipeline.specs.Walk.{table_after, side_of, metric_table, after_action, next_table, sets_skip, leads_to, ruled, by_action, answer, answer_of_side, has_rules, is_rule_table, by_default_if, keeps, end_by_action, end_by};
ghost use Rattle.flow_pipeline.specs.Views.{ending_of, visited, way_of};
ghost use Rattle.flow_pipeline.specs.Course.{start, heard, passed, passed_by, said, concluded};
ghost use Rattle.flow_pipeline.specs.CourseViews.{heard_of, course_of};

use crate::way::{Choice3, End, Visit, Way};
use cl_types::{Action, Cause, Dir, Judged, RuleKey, Verdict};
use flow_entries::{Does, Flow, Table};

/// The port of the gateway.
const GATEWAY_PORT: u16 = 2;

/// What was heard of a side: its first answer, and whether rules were met.
#[derive(Clone, Copy)]
pub(crate) struct Heard<'t> {
    pub answer: Option<Judged<'t>>,
    pub met: bool,
}

/// Where a walk leads, whether it skips policy, how the packet goes, where it ends by its last hit, and
/// the two sides.
#[derive(Clone, Copy)]
pub(crate) struct Course<'t> {
    pub next: Option<Table>,
    pub skip: bool,
    pub kept: Option<End<'t>>,
    pub end: End<'t>,
    pub egress: Heard<'t>,
    pub ingress: Heard<'t>,
}

fn table_after(t: Table) -> Option<Table>
    ensures { result ≡ table_after t }
{
    match t {
        Table::SpoofGuard => Some(Table::ConntrackState),
        Table::ConntrackState => Some(Table::AntreaPolicyEgressRule),
        Table::AntreaPolicyEgressRule => Some(Table::EgressRule),
        Table::EgressRule => Some(Table::EgressDefaultRule),
        Table::EgressDefaultRule => Some(Table::EgressMetric),
        Table::EgressMetric => Some(Table::L3Forwarding),
        Table::L3Forwarding => Some(Table::Snat),
        Table::Snat => Some(Table::AntreaPolicyIngressRule),
        Table::AntreaPolicyIngressRule => Some(Table::IngressRule),
        Table::IngressRule => Some(Table::IngressDefaultRule),
        Table::IngressDefaultRule => Some(Table::IngressMetric),
        Table::IngressMetric => Some(Table::ConntrackCommit),
        Table::ConntrackCommit => Some(Table::Output),
        Table::Output => None,
    }
}

fn side_of(t: Table) -> Dir
    ensures { result ≡ side_of t }
{
    if t.place() <= Table::EgressMetric.place() {
        Dir::Egress
    } else {
        Dir::Ingress
    }
}

fn metric_table(side: Dir) -> Table
    ensures { result ≡ metric_table side }
{
    match side {
        Dir::Egress => Table::EgressMetric,
        Dir::Ingress => Table::IngressMetric,
    }
}

fn after_action(t: Table, action: Action) -> Option<Table>
    ensures { result ≡ after_action t action }
{
    match action {
        Action::Allow => Some(metric_table(side_of(t))),
        Action::Drop | Action::Reject => None,
        Action::Pass => table_after(t),
    }
}

fn after_port(port: u16) -> Table
    ensures { Some result ≡ next_table Table.Output (Does.Port port) }
{
    if port == GATEWAY_PORT {
        Table::ConntrackCommit
    } else {
        Table::AntreaPolicyIngressRule
    }
}

fn next_table(t: Table, does: &Does) -> Option<Table>
    ensures { result ≡ next_table t does.now }
{
    match does {
        Does::Next => table_after(t),
        Does::Goto(later) => Some(*later),
        Does::Skip => Some(Table::L3Forwarding),
        Does::Port(port) => Some(after_port(*port)),
        Does::Tunnel(_) | Does::Leave | Does::Mark { .. } | Does::Remote { .. } => {
            Some(Table::ConntrackCommit)
        }
        Does::Verdict { action, .. } => after_action(t, *action),
        Does::Spoof | Does::NoPort | Does::Isolate | Does::Clauses(_) | Does::Output => None,
    }
}

fn sets_skip(does: &Does) -> bool
    ensures { result ≡ sets_skip does.now }
{
    matches!(does, Does::Skip)
}

fn ruled(verdict: Verdict, rule: &RuleKey) -> Judged<'_>
    ensures { judgement_of result ≡ ruled verdict rule.now }
{
    Judged {
        verdict,
        by: Cause::Rule(rule),
    }
}

fn by_action(action: Action, rule: &RuleKey) -> Option<Judged<'_>>
    ensures { option_map judgement_of result ≡ by_action action rule.now }
{
    match action {
        Action::Allow => Some(ruled(Verdict::Allow, rule)),
        Action::Drop => Some(ruled(Verdict::Drop, rule)),
        Action::Reject => Some(ruled(Verdict::Reject, rule)),
        Action::Pass => None,
    }
}

fn answer(does: &Does) -> Option<Judged<'_>>
    ensures { option_map judgement_of result ≡ answer does.now }
{
    match does {
        Does::Isolate => Some(Judged {
            verdict: Verdict::Drop,
            by: Cause::Isolation,
        }),
        Does::Verdict { action, rule } => by_action(*action, rule),
        _ => None,
    }
}

fn answer_of_side<'t>(side: Dir, v: Visit<'t>) -> Option<Judged<'t>>
    ensures { option_map judgement_of result ≡ answer_of_side side (visited v.entry) }
{
    if side_of(v.table).is(side) {
        answer(&v.flow.does)
    } else {
        None
    }
}

fn has_rules(t: Table) -> bool
    ensures { result ≡ has_rules t }
{
    matches!(
        t,
        Table::AntreaPolicyEgressRule
            | Table::EgressRule
            | Table::EgressDefaultRule
            | Table::AntreaPolicyIngressRule
            | Table::IngressRule
            | Table::IngressDefaultRule
    )
}

fn is_rule_table(side: Dir, t: Table) -> bool
    ensures { result ≡ is_rule_table side t }
{
    has_rules(t) && side_of(t).is(side)
}

fn by_default_if<'t>(met: bool) -> Option<Judged<'t>>
    ensures { option_map judgement_of result ≡ by_default_if met }
{
    if met {
        Some(Judged {
            verdict: Verdict::Allow,
            by: Cause::Default,
        })
    } else {
        None
    }
}

fn keeps(does: &Does) -> Option<End<'_>>
    ensures { option_map ending_of result ≡ keeps does.now }
{
    match does {
        Does::Port(port) => Some(End::Delivered(*port)),
        Does::Tunnel(node) => Some(End::Tunnelled(node)),
        Does::Leave => Some(End::Leaves(Choice3::Plain)),
        Does::Mark { address, .. } => Some(End::Leaves(Choice3::Here(*address))),
        Does::Remote { node, address } => Some(End::Leaves(Choice3::There {
            node,
            address: *address,
        })),
        _ => None,
    }
}

fn end_by_action<'t>(t: Table, action: Action) -> End<'t>
    ensures { ending_of result ≡ end_by_action t action }
{
    match action {
        Action::Allow | Action::Pass => End::NoPort,
        Action::Drop | Action::Reject => End::Stopped(side_of(t)),
    }
}

fn end_by<'t>(kept: Option<End<'t>>, t: Table, does: &Does) -> End<'t>
    ensures { ending_of result ≡ end_by (option_map ending_of kept.entry) t does.now }
{
    match does {
        Does::Spoof => End::Spoof,
        Does::Isolate => End::Stopped(side_of(t)),
        Does::Verdict { action, .. } => end_by_action(t, *action),
        Does::Output => kept.unwrap_or(End::NoPort),
        _ => End::NoPort,
    }
}

impl<'t> Heard<'t> {
    fn after(self, side: Dir, skip: bool, v: Visit<'t>) -> Heard<'t>
        ensures { heard_of result ≡ heard side skip (visited v.entry) (heard_of self.entry) }
    {
        Heard {
            answer: self.answer.or(answer_of_side(side, v)),
            met: self.met || !skip && is_rule_table(side, v.table),
        }
    }

    fn said(self) -> Option<Judged<'t>>
        ensures { option_map judgement_of result ≡ said (heard_of self.entry) }
    {
        self.answer.or(by_default_if(self.met))
    }
}

impl<'t> Course<'t> {
    pub(crate) fn start() -> Course<'t>
        ensures { course_of result ≡ start }
    {
        let nothing = Heard {
            answer: None,
            met: false,
        };
        Course {
            next: Some(Table::SpoofGuard),
            skip: false,
            kept: None,
            end: End::NoPort,
            egress: nothing,
            ingress: nothing,
        }
    }

    pub(crate) fn leads_to(&self, t: Table) -> bool
        ensures { result ≡ leads_to self.now.next t }
    {
        match self.next {
            Some(next) => next.is(t),
            None => false,
        }
    }

    fn passed(self, v: Visit<'t>) -> Course<'t>
        ensures { course_of result ≡ passed (visited v.entry) (course_of self.entry) }
    {
        let kept = keeps(&v.flow.does).or(self.kept);
        Course {
            next: next_table(v.table, &v.flow.does),
            skip: self.skip || sets_skip(&v.flow.does),
            kept,
            end: end_by(kept, v.table, &v.flow.does),
            egress: self.egress.after(Dir::Egress, self.skip, v),
            ingress: self.ingress.after(Dir::Ingress, self.skip, v),
        }
    }

    /// After a hit in this table, or where there is none.
    pub(crate) fn passed_by(self, table: Table, hit: Option<&'t Flow>) -> Course<'t>
        ensures { course_of result ≡ passed_by table (option_map (λ f. f.now) hit.entry) (course_of self.entry) }
    {
        match hit {
            Some(flow) => self.passed(Visit { table, flow }),
            None => Course { next: None, ..self },
        }
    }

    pub(crate) fn concluded(self) -> Way<'t>
        ensures { way_of result ≡ concluded (course_of self.entry) }
    {
        Way {
            egress: self.egress.said(),
            ingress: self.ingress.said(),
            end: self.end,
        }
    }
}
