//! The texts of matches and flows.
ghost use Rattle.std.specs.Prelude.{◌≡◌, ◌++◌, OnOk, OnErr, map, codes};
ghost use Rattle.std.specs.Option.{option_map};
ghost use Rattle.cl_types.specs.Written.{Begins};
ghost use Rattle.flow_entries.specs.Table.{table_text};
ghost use Rattle.flow_entries.specs.Listing.{joined, given, separator, continued, field_text, optional_texts, match_text, flow_text, clause_text, verdict_text, action_text, label_text, source_word, destination_word, block_text, protocol_text, mask_text, port_text, source_text, destination_text, tunnel_text, flag_text, conj_text, in_port_text, matched_text};
ghost use Rattle.std.specs.Prelude.{false};
ghost use Rattle.std.specs.Fmt.{decimal};
ghost use Rattle.cl_types.specs.Addr.{width_of};
ghost use Rattle.cl_types.specs.Written.{address_text};

use crate::fields::Match;
use crate::flow::{Clause, Does, Flow};
use crate::table::Table;
use cl_types::{
    Action, Addr, List, Masked, NoMemory, Prefix, Proto, Text, Written, write_bytes,
    write_hexadecimal, write_number,
};

// ---- parts joined by commas

// Appends the part, after a comma where others stand before it.
fn append_part<T: Written>(out: &mut Text, begun: bool, part: &T) -> Result<(), NoMemory>
    ensures ok { OnOk result (out.new ≡ out.old ++ (separator begun ++ T.text part.now)) }
    ensures err { OnErr result (Begins out.old out.new) }
{
    if begun {
        write_bytes(out, b",")?;
    }
    part.append(out)
}

// Appends the parts, joined by commas.
fn append_parts<T: Written>(out: &mut Text, parts: &[T]) -> Result<(), NoMemory>
    ensures ok { OnOk result (out.new ≡ out.old ++ continued false (map T.text parts.now)) }
    ensures err { OnErr result (Begins out.old out.new) }
{
    let mut begun = false;
    for part in parts.iter() {
        append_part(out, begun, part)?;
        begun = true;
    }
    Ok(())
}

// Appends the parts that are given.
fn append_given<T: Written>(
    out: &mut Text,
    begun: bool,
    parts: &[Option<T>],
) -> Result<(), NoMemory>
    ensures ok { OnOk result (out.new ≡ out.old ++ continued begun (given (map (option_map T.text) parts.now))) }
    ensures err { OnErr result (Begins out.old out.new) }
{
    let mut begun = begun;
    for part in parts.iter() {
        if let Some(part) = part {
            append_part(out, begun, part)?;
            begun = true;
        }
    }
    Ok(())
}

// ---- matches

// A field that a flow gives.
#[derive(Clone, Copy)]
enum Field {
    InPort(u16),
    Known,
    Skip,
    Conj(u32),
    Source(Prefix),
    Destination(Prefix),
    Tunnel(Addr),
    Protocol(Proto),
    Port(Masked),
}

fn source_word(a: Addr) -> &'static [u8]
    ensures { result.now ≡ source_word a }
{
    match a {
        Addr::V4(_) => b"nw_src=",
        Addr::V6(_) => b"ipv6_src=",
    }
}

fn destination_word(a: Addr) -> &'static [u8]
    ensures { result.now ≡ destination_word a }
{
    match a {
        Addr::V4(_) => b"nw_dst=",
        Addr::V6(_) => b"ipv6_dst=",
    }
}

fn width(a: Addr) -> u8
    ensures { result ≡ width_of a }
{
    match a {
        Addr::V4(_) => 32,
        Addr::V6(_) => 128,
    }
}

fn write_block(out: &mut Text, block: &Prefix) -> Result<(), NoMemory>
    ensures ok { OnOk result (out.new ≡ out.old ++ block_text block.now) }
    ensures err { OnErr result (out.new ≡ out.old) }
{
    if block.len == width(block.base) {
        block.base.write(out)
    } else {
        block.write(out)
    }
}

fn protocol_word(proto: Proto) -> &'static [u8]
    ensures { result.now ≡ protocol_text proto }
{
    match proto {
        Proto::Tcp => b"tcp",
        Proto::Udp => b"udp",
        Proto::Sctp => b"sctp",
        Proto::Icmp => b"icmp",
    }
}

fn append_mask(out: &mut Text, mask: u16) -> Result<(), NoMemory>
    ensures ok { OnOk result (out.new ≡ out.old ++ mask_text mask) }
    ensures err { OnErr result (Begins out.old out.new) }
{
    if mask == 0xffff {
        return Ok(());
    }
    write_bytes(out, b"/0x")?;
    write_hexadecimal(out, u64::from(mask))
}

fn append_port(out: &mut Text, port: Masked) -> Result<(), NoMemory>
    ensures ok { OnOk result (out.new ≡ out.old ++ port_text port) }
    ensures err { OnErr result (Begins out.old out.new) }
{
    append_counted(out, b"tp_dst=", u64::from(port.value))?;
    append_mask(out, port.mask)
}

// Appends the word and the number.
fn append_counted(out: &mut Text, word: &[u8], n: u64) -> Result<(), NoMemory>
    ensures ok { OnOk result (out.new ≡ out.old ++ (word.now ++ decimal n)) }
    ensures err { OnErr result (Begins out.old out.new) }
{
    write_bytes(out, word)?;
    write_number(out, n)
}

fn append_source(out: &mut Text, block: &Prefix) -> Result<(), NoMemory>
    ensures ok { OnOk result (out.new ≡ out.old ++ source_text block.now) }
    ensures err { OnErr result (Begins out.old out.new) }
{
    write_bytes(out, source_word(block.base))?;
    write_block(out, block)
}

fn append_destination(out: &mut Text, block: &Prefix) -> Result<(), NoMemory>
    ensures ok { OnOk result (out.new ≡ out.old ++ destination_text block.now) }
    ensures err { OnErr result (Begins out.old out.new) }
{
    write_bytes(out, destination_word(block.base))?;
    write_block(out, block)
}

fn append_tunnel(out: &mut Text, a: Addr) -> Result<(), NoMemory>
    ensures ok { OnOk result (out.new ≡ out.old ++ tunnel_text a) }
    ensures err { OnErr result (Begins out.old out.new) }
{
    write_bytes(out, b"tun_dst=")?;
    a.write(out)
}

impl Written for Field {
    ghost text = { field_text };

    fn append(&self, out: &mut Text) -> Result<(), NoMemory> {
        match self {
            Field::InPort(port) => append_counted(out, b"in_port=", u64::from(*port)),
            Field::Known => write_bytes(out, b"known"),
            Field::Skip => write_bytes(out, b"skip"),
            Field::Conj(id) => append_counted(out, b"conj_id=", u64::from(*id)),
            Field::Source(block) => append_source(out, block),
            Field::Destination(block) => append_destination(out, block),
            Field::Tunnel(a) => append_tunnel(out, *a),
            Field::Protocol(proto) => write_bytes(out, protocol_word(*proto)),
            Field::Port(port) => append_port(out, *port),
        }
    }
}

fn in_port_field(field: Option<u16>) -> Option<Field>
    ensures { option_map field_text result ≡ option_map in_port_text field }
{
    match field {
        Some(field) => Some(Field::InPort(field)),
        None => None,
    }
}

fn conj_field(field: Option<u32>) -> Option<Field>
    ensures { option_map field_text result ≡ option_map conj_text field }
{
    match field {
        Some(field) => Some(Field::Conj(field)),
        None => None,
    }
}

fn source_field(field: Option<Prefix>) -> Option<Field>
    ensures { option_map field_text result ≡ option_map source_text field }
{
    match field {
        Some(field) => Some(Field::Source(field)),
        None => None,
    }
}

fn destination_field(field: Option<Prefix>) -> Option<Field>
    ensures { option_map field_text result ≡ option_map destination_text field }
{
    match field {
        Some(field) => Some(Field::Destination(field)),
        None => None,
    }
}

fn tunnel_field(field: Option<Addr>) -> Option<Field>
    ensures { option_map field_text result ≡ option_map tunnel_text field }
{
    match field {
        Some(field) => Some(Field::Tunnel(field)),
        None => None,
    }
}

fn protocol_field(field: Option<Proto>) -> Option<Field>
    ensures { option_map field_text result ≡ option_map protocol_text field }
{
    match field {
        Some(field) => Some(Field::Protocol(field)),
        None => None,
    }
}

fn port_field(field: Option<Masked>) -> Option<Field>
    ensures { option_map field_text result ≡ option_map port_text field }
{
    match field {
        Some(field) => Some(Field::Port(field)),
        None => None,
    }
}

fn flag_field(field: Field, asked: bool) -> Option<Field>
    ensures { option_map field_text result ≡ flag_text (field_text field) asked }
{
    if asked { Some(field) } else { None }
}

// The fields in the order in which they are written.
fn fields_of(m: &Match) -> [Option<Field>; 9]
    ensures { map (option_map field_text) result ≡ optional_texts m.now }
{
    [
        in_port_field(m.in_port),
        flag_field(Field::Known, m.known),
        flag_field(Field::Skip, m.skip),
        conj_field(m.conj),
        source_field(m.src),
        destination_field(m.dst),
        tunnel_field(m.tunnel),
        protocol_field(m.proto),
        port_field(m.dport),
    ]
}

impl Written for Match {
    ghost text = { match_text };

    #[tactic(auto, using(crate::proofs::Joined::joined_is_continued), unfolding(crate::specs::Listing::match_text))]
    fn append(&self, out: &mut Text) -> Result<(), NoMemory> {
        append_given(out, false, &fields_of(self))
    }
}

// ---- actions

impl Written for Table {
    ghost text = { table_text };

    fn append(&self, out: &mut Text) -> Result<(), NoMemory> {
        write_bytes(out, self.name())
    }
}

// Appends the word, what stands in its parentheses, and the closing one.
fn append_call<T: Written>(out: &mut Text, word: &[u8], inner: &T) -> Result<(), NoMemory>
    ensures ok { OnOk result (out.new ≡ out.old ++ (word.now ++ (T.text inner.now ++ codes ")"))) }
    ensures err { OnErr result (Begins out.old out.new) }
{
    write_bytes(out, word)?;
    inner.append(out)?;
    write_bytes(out, b")")
}

impl Written for Clause {
    ghost text = { clause_text };

    fn append(&self, out: &mut Text) -> Result<(), NoMemory> {
        append_counted(out, b"conjunction(", u64::from(self.id))?;
        append_counted(out, b",", u64::from(self.k))?;
        write_bytes(out, b"/3)")
    }
}

#[tactic(auto, using(crate::proofs::Joined::joined_is_continued))]
fn append_clauses(out: &mut Text, clauses: &List<Clause>) -> Result<(), NoMemory>
    ensures ok { OnOk result (out.new ≡ out.old ++ joined (map clause_text clauses.now)) }
    ensures err { OnErr result (Begins out.old out.new) }
{
    append_parts(out, clauses.as_slice())
}

fn append_remote(out: &mut Text, node: &Text, a: Addr) -> Result<(), NoMemory>
    ensures ok { OnOk result (out.new ≡ out.old ++ (codes "remote(" ++ (node.now ++ (codes "," ++ (address_text a ++ codes ")"))))) }
    ensures err { OnErr result (Begins out.old out.new) }
{
    write_bytes(out, b"remote(")?;
    node.write(out)?;
    append_call(out, b",", &a)
}

fn verdict_word(action: Action) -> &'static [u8]
    ensures { result.now ≡ verdict_text action }
{
    match action {
        Action::Allow => b"allow",
        Action::Drop => b"drop",
        Action::Reject => b"reject",
        Action::Pass => b"pass",
    }
}

impl Written for Does {
    ghost text = { action_text };

    fn append(&self, out: &mut Text) -> Result<(), NoMemory> {
        match self {
            Does::Next => write_bytes(out, b"next"),
            Does::Goto(table) => append_call(out, b"goto(", table),
            Does::Skip => write_bytes(out, b"skip"),
            Does::Port(port) => append_call(out, b"port(", &u64::from(*port)),
            Does::Tunnel(node) => append_call(out, b"tunnel(", node),
            Does::Leave => write_bytes(out, b"leave"),
            Does::Mark { mark, .. } => append_call(out, b"mark(", &u64::from(*mark)),
            Does::Remote { node, address } => append_remote(out, node, *address),
            Does::Spoof => write_bytes(out, b"spoof"),
            Does::NoPort => write_bytes(out, b"noport"),
            Does::Isolate => write_bytes(out, b"isolate"),
            Does::Clauses(clauses) => append_clauses(out, clauses),
            Does::Verdict { action, .. } => write_bytes(out, verdict_word(*action)),
            Does::Output => write_bytes(out, b"output"),
        }
    }
}

impl Written for Flow {
    ghost text = { flow_text };

    fn append(&self, out: &mut Text) -> Result<(), NoMemory> {
        append_matched(out, self)?;
        write_bytes(out, b" actions=")?;
        self.does.append(out)
    }
}

// Appends the flow's table, priority and match.
fn append_matched(out: &mut Text, flow: &Flow) -> Result<(), NoMemory>
    ensures ok { OnOk result (out.new ≡ out.old ++ matched_text flow.now) }
    ensures err { OnErr result (Begins out.old out.new) }
{
    append_head(out, flow)?;
    append_given(out, true, &fields_of(&flow.fields))
}

fn append_head(out: &mut Text, flow: &Flow) -> Result<(), NoMemory>
    ensures ok { OnOk result (out.new ≡ out.old ++ (codes "table=" ++ (table_text flow.now.table ++ (codes ",priority=" ++ decimal flow.now.priority)))) }
    ensures err { OnErr result (Begins out.old out.new) }
{
    write_bytes(out, b"table=")?;
    flow.table.write(out)?;
    append_counted(out, b",priority=", u64::from(flow.priority))
}

// ---- labels

// What a trace says of a flow that is hit.
#[derive(Clone, Copy)]
struct Label<'f> {
    does: &'f Does,
}

impl<'f> Written for Label<'f> {
    ghost text = { λ label. label_text label.does.now };

    fn append(&self, out: &mut Text) -> Result<(), NoMemory> {
        match self.does {
            Does::Mark { address, .. } => append_call(out, b"mark(", address),
            Does::Verdict { action, rule } => {
                write_bytes(out, verdict_word(*action))?;
                write_bytes(out, b" ")?;
                rule.append(out)
            }
            other => other.append(out),
        }
    }
}

// ---- what others call

/// Appends the match's text: its fields, joined by commas.
pub fn write_match(out: &mut Text, m: &Match) -> Result<(), NoMemory>
    ensures ok { OnOk result (out.new ≡ out.old ++ match_text m.now) }
    ensures err { OnErr result (out.new ≡ out.old) }
{
    m.write(out)
}

/// Appends the flow's line in a listing: table, priority, match and action.
pub fn write_flow(out: &mut Text, f: &Flow) -> Result<(), NoMemory>
    ensures ok { OnOk result (out.new ≡ out.old ++ flow_text f.now) }
    ensures err { OnErr result (out.new ≡ out.old) }
{
    f.write(out)
}

/// Appends what a trace says of a flow that is hit: its action, the address of a mark, and the rule of a
/// verdict. It depends on no id, number or mark.
pub fn write_label(out: &mut Text, f: &Flow) -> Result<(), NoMemory>
    ensures ok { OnOk result (out.new ≡ out.old ++ label_text f.now.does) }
    ensures err { OnErr result (out.new ≡ out.old) }
{
    Label { does: &f.does }.write(out)
}
