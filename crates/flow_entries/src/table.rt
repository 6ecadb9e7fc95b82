ghost use Rattle.std.specs.Prelude.{◌≡◌, ◌==◌, refl};
ghost use Rattle.flow_entries.specs.Table.{table_place, table_text, table_eq};

/// The tables that a packet passes, in this order (Antrea's OVS pipeline).
#[derive(Clone, Copy, Debug, PartialEq, Eq)]
pub enum Table {
    SpoofGuard,
    ConntrackState,
    AntreaPolicyEgressRule,
    EgressRule,
    EgressDefaultRule,
    EgressMetric,
    L3Forwarding,
    Snat,
    AntreaPolicyIngressRule,
    IngressRule,
    IngressDefaultRule,
    IngressMetric,
    ConntrackCommit,
    Output,
}

impl Table {
    /// How many tables stand before this one.
    pub fn place(self) -> u8
        ensures { result ≡ table_place self }
    {
        match self {
            Table::SpoofGuard => 0,
            Table::ConntrackState => 1,
            Table::AntreaPolicyEgressRule => 2,
            Table::EgressRule => 3,
            Table::EgressDefaultRule => 4,
            Table::EgressMetric => 5,
            Table::L3Forwarding => 6,
            Table::Snat => 7,
            Table::AntreaPolicyIngressRule => 8,
            Table::IngressRule => 9,
            Table::IngressDefaultRule => 10,
            Table::IngressMetric => 11,
            Table::ConntrackCommit => 12,
            Table::Output => 13,
        }
    }

    /// The table's name in listings, traces and words.
    pub fn name(self) -> &'static [u8]
        ensures { result.now ≡ table_text self }
    {
        match self {
            Table::SpoofGuard => b"SpoofGuard",
            Table::ConntrackState => b"ConntrackState",
            Table::AntreaPolicyEgressRule => b"AntreaPolicyEgressRule",
            Table::EgressRule => b"EgressRule",
            Table::EgressDefaultRule => b"EgressDefaultRule",
            Table::EgressMetric => b"EgressMetric",
            Table::L3Forwarding => b"L3Forwarding",
            Table::Snat => b"SNAT",
            Table::AntreaPolicyIngressRule => b"AntreaPolicyIngressRule",
            Table::IngressRule => b"IngressRule",
            Table::IngressDefaultRule => b"IngressDefaultRule",
            Table::IngressMetric => b"IngressMetric",
            Table::ConntrackCommit => b"ConntrackCommit",
            Table::Output => b"Output",
        }
    }

    /// Whether the two are one table.
    pub fn is(self, other: Table) -> bool
        ensures { result ≡ table_eq self other }
    {
        self.place() == other.place()
    }
}
