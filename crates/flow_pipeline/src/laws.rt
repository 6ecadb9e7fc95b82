//! Laws of the definitions that the contracts cite. Each function does nothing; its clause is the law.

ghost use Rattle.std.specs.Prelude.{List, Bool};
ghost use Rattle.std.specs.Ordering.{nat_cmp};
ghost use Rattle.cl_types.specs.Ascending.{Ascends};
ghost use Rattle.cl_types.specs.Judgement.{Judgement};
ghost use Rattle.cl_types.specs.declared.addr.Addr.{Addr};
ghost use Rattle.cl_types.specs.declared.question.Packet.{Packet};
ghost use Rattle.cl_types.specs.declared.question.Question.{Question};
ghost use Rattle.flow_entries.specs.declared.flow.Flow.{Flow};
ghost use Rattle.flow_entries.specs.Table.{table_place};
ghost use Rattle.flow_pipeline.specs.Walk.{all_visits};
ghost use Rattle.flow_pipeline.specs.Way.{Choice, NodeFacts, IsStoppedByItsSide, way};

/// A walk leads from each table to a later one, so that it passes no table twice.
pub fn walks_lead_on()
    ensures { (flows : List Flow) (known : Bool) (p : Packet) →
        Ascends (λ v. table_place v.table) nat_cmp (all_visits flows known p) }
{}

/// A packet that a side stops is stopped by what this side said.
pub fn stops_are_by_their_side()
    ensures { (judge : Question → Judgement) (choose : Addr → Choice) (is_marked : Addr → Bool) (n : NodeFacts) (known : Bool) (p : Packet) →
        IsStoppedByItsSide (way judge choose is_marked n known p) }
{}
