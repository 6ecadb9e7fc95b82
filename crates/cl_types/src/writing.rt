ghost use Rattle.std.specs.Prelude.{◌≡◌, ℕ, ◌≤◌, ◌<◌, ◌+◌, ◌^◌, List as Items, ◌++◌, false, OnOk, OnErr, map, take, length};
ghost use Rattle.std.specs.Fmt.{decimal, digits, digit_glyph};
ghost use Rattle.std.specs.List.{join_with_byte};
ghost use Rattle.cl_types.specs.Written.{Begins, longest_run, compressed, groups_of, dotted, address_text, prefix_text, pod_text, policy_text, direction_text, rule_text, verdict_text, reason_text, judged_text, kind_text};
ghost use Rattle.cl_types.specs.Judgement.{judgement_of, reason_of};

use crate::addr::Addr;
use crate::keys::{Dir, PodKey, PolicyKey, PolicyKind, RuleKey};
use crate::memory::NoMemory;
use crate::prefix::Prefix;
use crate::text::Text;
use crate::verdict::{Cause, Judged, Verdict};

/// What has a printed text.
pub trait Written {
    ghost text: { Self → Items ℕ };

    /// Appends the text. A call that runs out of memory may leave a part of the text behind.
    fn append(&self, out: &mut Text) -> Result<(), NoMemory>
        ensures ok { OnOk result (out.new ≡ out.old ++ text self.now) }
        ensures err { OnErr result (Begins out.old out.new) };

    /// Appends the whole text, or leaves `out` as it was.
    fn write(&self, out: &mut Text) -> Result<(), NoMemory>
        ensures ok { OnOk result (out.new ≡ out.old ++ text self.now) }
        ensures err { OnErr result (out.new ≡ out.old) }
    {
        let len = out.as_slice().len();
        let done = self.append(out);
        undone(out, len, done)
    }
}

/// Appends the bytes.
pub fn write_bytes(out: &mut Text, bytes: &[u8]) -> Result<(), NoMemory>
    ensures ok { OnOk result (out.new ≡ out.old ++ bytes.now) }
    ensures err { OnErr result (out.new ≡ out.old) }
{
    out.vec_mut().extend_from_slice(bytes)?;
    Ok(())
}

// Removes what a writer that failed has appended.
fn undone(out: &mut Text, len: usize, done: Result<(), NoMemory>) -> Result<(), NoMemory>
    ensures same { result ≡ done }
    ensures ok { OnOk done (out.new ≡ out.old) }
    ensures err { OnErr done (out.new ≡ take len out.old) }
{
    if done.is_err() {
        out.vec_mut().truncate(len);
    }
    done
}

fn glyph(digit: u8) -> u8
    requires { digit < 16 }
    ensures { result ≡ digit_glyph false digit }
{
    if digit < 10 {
        b'0' + digit
    } else {
        b'a' + (digit - 10)
    }
}

fn append_digits(out: &mut Text, n: u64, base: u64) -> Result<(), NoMemory>
    requires low { 2 ≤ base }
    requires high { base ≤ 16 }
    ensures ok { OnOk result (out.new ≡ out.old ++ digits base false n) }
    ensures err { OnErr result (Begins out.old out.new) }
{
    if n >= base {
        append_digits(out, n / base, base)?;
    }
    let last = glyph((n % base) as u8);
    write_bytes(out, &[last])
}

/// Appends the decimal digits, without leading zeros.
pub fn write_number(out: &mut Text, n: u64) -> Result<(), NoMemory>
    ensures ok { OnOk result (out.new ≡ out.old ++ decimal n) }
    ensures err { OnErr result (out.new ≡ out.old) }
{
    n.write(out)
}

/// Appends the number in lower-case hexadecimal digits, without leading zeros.
pub fn write_hexadecimal(out: &mut Text, n: u64) -> Result<(), NoMemory>
    ensures ok { OnOk result (out.new ≡ out.old ++ digits 16 false n) }
    ensures err { OnErr result (out.new ≡ out.old) }
{
    let len = out.as_slice().len();
    let done = append_digits(out, n, 16);
    undone(out, len, done)
}

impl Written for u64 {
    ghost text = { decimal };

    fn append(&self, out: &mut Text) -> Result<(), NoMemory> {
        append_digits(out, *self, 10)
    }
}

impl Written for Text {
    ghost text = { λ t. t };

    fn append(&self, out: &mut Text) -> Result<(), NoMemory> {
        write_bytes(out, self.as_slice())
    }
}

// The digits of the parts, with the separator between each two.
fn append_joined(out: &mut Text, parts: &[u16], base: u64, separator: u8) -> Result<(), NoMemory>
    requires low { 2 ≤ base }
    requires high { base ≤ 16 }
    ensures ok { OnOk result
        (out.new ≡ out.old ++ join_with_byte separator (map (digits base false) parts.now)) }
    ensures err { OnErr result (Begins out.old out.new) }
{
    for (i, part) in parts.iter().enumerate() {
        if i > 0 {
            write_bytes(out, &[separator])?;
        }
        append_digits(out, u64::from(*part), base)?;
    }
    Ok(())
}

// Neighbouring groups of an IPv6 address that are zero.
#[derive(Clone, Copy)]
struct ZeroRun {
    start: usize,
    len: usize,
}

fn longest_zero_run(groups: &[u16]) -> ZeroRun
    ensures value { result ≡ longest_run 0 groups.now }
    ensures within { result.start + result.len ≤ length groups.now }
{
    let mut start = groups.len();
    let mut zeros = 0;
    let mut longest = ZeroRun { start, len: 0 };
    while start > 0 {
        start -= 1;
        zeros = if groups[start] == 0 { zeros + 1 } else { 0 };
        if zeros >= longest.len {
            longest = ZeroRun { start, len: zeros };
        }
    }
    longest
}

fn append_compressed(out: &mut Text, groups: &[u16]) -> Result<(), NoMemory>
    ensures ok { OnOk result (out.new ≡ out.old ++ compressed groups.now) }
    ensures err { OnErr result (Begins out.old out.new) }
{
    let run = longest_zero_run(groups);
    if run.len < 2 {
        return append_joined(out, groups, 16, b':');
    }
    append_joined(out, &groups[..run.start], 16, b':')?;
    write_bytes(out, b"::")?;
    append_joined(out, &groups[run.start + run.len..], 16, b':')
}

fn split_groups(n: u128) -> [u16; 8]
    ensures { result ≡ groups_of n }
{
    let mut groups = [0u16; 8];
    let mut rest = n;
    for i in 0..8 {
        groups[7 - i] = (rest % 65536) as u16;
        rest /= 65536;
    }
    groups
}

fn append_dotted(out: &mut Text, n: u32) -> Result<(), NoMemory>
    ensures ok { OnOk result (out.new ≡ out.old ++ dotted n) }
    ensures err { OnErr result (Begins out.old out.new) }
{
    let [a, b, c, d] = n.to_be_bytes();
    let octets = [u16::from(a), u16::from(b), u16::from(c), u16::from(d)];
    append_joined(out, &octets, 10, b'.')
}

impl Written for Addr {
    ghost text = { address_text };

    fn append(&self, out: &mut Text) -> Result<(), NoMemory> {
        match *self {
            Addr::V4(n) => append_dotted(out, n),
            Addr::V6(n) => append_compressed(out, &split_groups(n)),
        }
    }
}

/// Appends the address: four decimals joined by dots, or the text of RFC 5952.
pub fn write_addr(out: &mut Text, a: Addr) -> Result<(), NoMemory>
    ensures ok { OnOk result (out.new ≡ out.old ++ address_text a) }
    ensures err { OnErr result (out.new ≡ out.old) }
{
    a.write(out)
}

impl Written for Prefix {
    ghost text = { prefix_text };

    fn append(&self, out: &mut Text) -> Result<(), NoMemory> {
        self.base.write(out)?;
        write_bytes(out, b"/")?;
        write_number(out, u64::from(self.len))
    }
}

/// Appends the block's address, `/` and its length.
pub fn write_prefix(out: &mut Text, p: &Prefix) -> Result<(), NoMemory>
    ensures ok { OnOk result (out.new ≡ out.old ++ prefix_text p.now) }
    ensures err { OnErr result (out.new ≡ out.old) }
{
    p.write(out)
}

impl Written for PodKey {
    ghost text = { pod_text };

    fn append(&self, out: &mut Text) -> Result<(), NoMemory> {
        self.namespace.write(out)?;
        write_bytes(out, b"/")?;
        self.name.write(out)
    }
}

/// Appends the pod's text.
pub fn write_pod(out: &mut Text, pod: &PodKey) -> Result<(), NoMemory>
    ensures ok { OnOk result (out.new ≡ out.old ++ pod_text pod.now) }
    ensures err { OnErr result (out.new ≡ out.old) }
{
    pod.write(out)
}

fn kind_word(kind: PolicyKind) -> &'static [u8]
    ensures { result.now ≡ kind_text kind }
{
    match kind {
        PolicyKind::Cluster => b"acnp:",
        PolicyKind::Antrea => b"anp:",
        PolicyKind::Kube => b"knp:",
    }
}

impl Written for PolicyKey {
    ghost text = { policy_text };

    fn append(&self, out: &mut Text) -> Result<(), NoMemory> {
        write_bytes(out, kind_word(self.kind))?;
        if self.kind != PolicyKind::Cluster {
            self.namespace.write(out)?;
            write_bytes(out, b"/")?;
        }
        self.name.write(out)
    }
}

/// Appends the policy's text.
pub fn write_policy(out: &mut Text, policy: &PolicyKey) -> Result<(), NoMemory>
    ensures ok { OnOk result (out.new ≡ out.old ++ policy_text policy.now) }
    ensures err { OnErr result (out.new ≡ out.old) }
{
    policy.write(out)
}

impl Written for RuleKey {
    ghost text = { rule_text };

    fn append(&self, out: &mut Text) -> Result<(), NoMemory> {
        self.policy.write(out)?;
        write_bytes(out, b" ")?;
        write_bytes(out, direction_word(self.dir))?;
        write_bytes(out, b"[")?;
        write_number(out, u64::from(self.index))?;
        write_bytes(out, b"]")
    }
}

fn direction_word(dir: Dir) -> &'static [u8]
    ensures { result.now ≡ direction_text dir }
{
    match dir {
        Dir::Ingress => b"ingress",
        Dir::Egress => b"egress",
    }
}

/// Appends the rule's text.
pub fn write_rule(out: &mut Text, rule: &RuleKey) -> Result<(), NoMemory>
    ensures ok { OnOk result (out.new ≡ out.old ++ rule_text rule.now) }
    ensures err { OnErr result (out.new ≡ out.old) }
{
    rule.write(out)
}

fn verdict_word(verdict: Verdict) -> &'static [u8]
    ensures { result.now ≡ verdict_text verdict }
{
    match verdict {
        Verdict::Allow => b"allow",
        Verdict::Drop => b"drop",
        Verdict::Reject => b"reject",
    }
}

impl<'a> Written for Cause<'a> {
    ghost text = { λ cause. reason_text (reason_of cause) };

    fn append(&self, out: &mut Text) -> Result<(), NoMemory> {
        match self {
            Cause::Rule(rule) => rule.append(out),
            Cause::Isolation => write_bytes(out, b"isolation"),
            Cause::Default => write_bytes(out, b"default"),
        }
    }
}

impl<'a> Written for Judged<'a> {
    ghost text = { λ judged. judged_text (judgement_of judged) };

    fn append(&self, out: &mut Text) -> Result<(), NoMemory> {
        write_bytes(out, verdict_word(self.verdict))?;
        write_bytes(out, b" by ")?;
        self.by.write(out)
    }
}

/// Appends the verdict with its cause.
pub fn write_judged(out: &mut Text, judged: &Judged) -> Result<(), NoMemory>
    ensures ok { OnOk result (out.new ≡ out.old ++ judged_text (judgement_of judged.now)) }
    ensures err { OnErr result (out.new ≡ out.old) }
{
    judged.write(out)
}

#[cfg(test)]
mod tests;
