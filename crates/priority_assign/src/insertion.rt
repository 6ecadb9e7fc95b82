ghost use Rattle.std.specs.Prelude.{◌≡◌, ◌≤◌, ◌<◌, ◌++◌, [], ◌+◌, length, take, drop, OnOk, OnErr, IfOk, IsNone, remove, Some, true};
ghost use Rattle.std.specs.List.Sorted.{IsStrictlySortedBy};
ghost use Rattle.cl_types.specs.RuleOrder.{rule_order};
ghost use Rattle.priority_assign.specs.Rules.{keys, place_of, is_before, is_rule, number_of, IsLadder, most_rules};
ghost use Rattle.priority_assign.specs.Windows.{fits};
ghost use Rattle.priority_assign.specs.Insertion.{even_number, evenly, changes, halfway, spread, inserted, relabelled};

use crate::numbered::{Numbered, Placed};
use crate::window::{Window, least_window, number_after, number_before};
use cl_types::{Copies, List, NoMemory, RuleKey, rule_cmp};

/// Numbers to be spread evenly over `width` rules, between two that stay.
#[derive(Clone, Copy)]
pub struct Spread {
    pub lower: u16,
    pub upper: u16,
    pub width: usize,
}

/// Whether the rule stands before `k`.
fn is_before(rule: &Numbered, k: &RuleKey) -> bool
    ensures { result ≡ is_before k.now rule.now }
{
    rule_cmp(&rule.key, k).is_lt()
}

/// Whether the rule's key is `k`.
pub fn is_rule(rule: &Numbered, k: &RuleKey) -> bool
    ensures { result ≡ is_rule k.now rule.now }
{
    rule_cmp(&rule.key, k).is_eq()
}

/// How many rules stand before `k`, or would.
pub fn place_of(rules: &[Numbered], k: &RuleKey) -> usize
    requires { IsStrictlySortedBy rule_order (keys rules.now) }
    ensures within { result ≤ length rules.now }
    ensures place { result ≡ place_of rules.now k.now }
{
    rules.partition_point(|rule| is_before(rule, k))
}

/// The number of the `i`-th rule, counted from the last.
pub fn even_number(spread: Spread, i: usize) -> u16
    requires ordered { spread.lower ≤ spread.upper }
    requires within { i ≤ spread.width }
    requires few { spread.width ≤ most_rules }
    ensures { result ≡ even_number spread.lower spread.upper spread.width i }
{
    let lower = usize::from(spread.lower);
    let upper = usize::from(spread.upper);
    (lower + i * (upper - lower) / (spread.width + 1)) as u16
}

/// Numbers a whole window's rules.
pub fn renumber(rules: &mut [Numbered], spread: Spread)
    requires ordered { spread.lower ≤ spread.upper }
    requires whole { length rules.old ≡ spread.width }
    requires few { spread.width ≤ most_rules }
    ensures { rules.new ≡ evenly spread.lower spread.upper spread.width spread.width (keys rules.old) }
{
    let mut i = spread.width;
    for rule in rules.iter_mut() {
        rule.number = even_number(spread, i);
        i -= 1;
    }
}

/// Numbers the rules of a window that begins here.
fn renumber_part(rules: &mut Vec<Numbered>, begin: usize, spread: Spread)
    requires ordered { spread.lower ≤ spread.upper }
    requires within { begin + spread.width ≤ length rules.old.items }
    requires few { spread.width ≤ most_rules }
    ensures { rules.new.items ≡ take begin rules.old.items
        ++ evenly spread.lower spread.upper spread.width spread.width
        (keys (take spread.width (drop begin rules.old.items)))
        ++ drop (begin + spread.width) rules.old.items }
{
    renumber(
        &mut rules.as_mut_slice()[begin..begin + spread.width],
        spread,
    );
}

/// Adds those of the rules whose numbers are to change, with their new numbers; the first is the `first`-th,
/// counted from the last.
pub fn collect_changes(
    changed: &mut Vec<Numbered>,
    rules: &[Numbered],
    spread: Spread,
    first: usize,
) -> Result<(), NoMemory>
    requires ordered { spread.lower ≤ spread.upper }
    requires within { first ≤ spread.width }
    requires enough { length rules.now ≤ first }
    requires few { spread.width ≤ most_rules }
    ensures { OnOk result (changed.new.items ≡ changed.old.items
        ++ changes rules.now (evenly spread.lower spread.upper spread.width first (keys rules.now))) }
{
    let mut i = first;
    for rule in rules {
        let number = even_number(spread, i);
        if number != rule.number {
            changed.push(Numbered {
                key: rule.key.copy()?,
                number,
            })?;
        }
        i -= 1;
    }
    Ok(())
}

/// Inserts a rule at its place, halfway between its neighbours.
fn insert_halfway(rules: &mut Vec<Numbered>, place: usize, key: RuleKey) -> Result<Placed, NoMemory>
    requires ladder { IsLadder rules.old.items }
    requires here { place ≡ place_of rules.old.items key }
    ensures rules { OnOk result (rules.new.items ≡ halfway rules.old.items key) }
    ensures number { IfOk result (λ placed. number_of rules.new.items key ≡ Some placed.number) }
    ensures relabelled { IfOk result (λ placed. placed.relabelled ≡ []) }
    ensures err { OnErr result (rules.new.items ≡ rules.old.items) }
{
    let lower = number_after(rules.as_slice(), place);
    let upper = number_before(rules.as_slice(), place);
    let number = ((u32::from(lower) + u32::from(upper)) / 2) as u16;
    let relabelled = List::new(*rules.allocator());
    rules.insert(place, Numbered { key, number })?;
    Ok(Placed { number, relabelled })
}

/// Inserts a rule at its place, and spreads its window's rules evenly.
fn insert_spread(
    rules: &mut Vec<Numbered>,
    place: usize,
    key: RuleKey,
    window: Window,
) -> Result<Placed, NoMemory>
    requires ladder { IsLadder rules.old.items }
    requires here { place ≡ place_of rules.old.items key }
    requires few { length rules.old.items < most_rules }
    requires fit { fits rules.old.items place window ≡ true }
    ensures rules { OnOk result (rules.new.items ≡ spread rules.old.items key window) }
    ensures number { IfOk result (λ placed. number_of rules.new.items key ≡ Some placed.number) }
    ensures relabelled { IfOk result
        (λ placed. placed.relabelled ≡ changes rules.old.items (remove rules.new.items place)) }
    ensures err { OnErr result (rules.new.items ≡ rules.old.items) }
{
    let end = window.begin + window.width - 1;
    let spread = Spread {
        lower: number_after(rules.as_slice(), end),
        upper: number_before(rules.as_slice(), window.begin),
        width: window.width,
    };
    let mut changed = Vec::new(*rules.allocator());
    collect_changes(
        &mut changed,
        &rules.as_slice()[window.begin..place],
        spread,
        window.width,
    )?;
    collect_changes(
        &mut changed,
        &rules.as_slice()[place..end],
        spread,
        end - place,
    )?;
    let number = even_number(spread, end + 1 - place);
    rules.insert(place, Numbered { key, number })?;
    renumber_part(rules, window.begin, spread);
    Ok(Placed {
        number,
        relabelled: List::of(changed),
    })
}

/// Inserts a rule.
#[tactic(auto, unfolding(crate::specs::Insertion::inserted, crate::specs::Insertion::relabelled))]
pub fn insert_rule(rules: &mut Vec<Numbered>, key: RuleKey) -> Result<Placed, NoMemory>
    requires ladder { IsLadder rules.old.items }
    requires absent { IsNone (number_of rules.old.items key) }
    requires few { length rules.old.items < most_rules }
    ensures rules { OnOk result (rules.new.items ≡ inserted rules.old.items key) }
    ensures number { IfOk result (λ placed. number_of rules.new.items key ≡ Some placed.number) }
    ensures relabelled { IfOk result (λ placed. placed.relabelled ≡ relabelled rules.old.items key) }
    ensures err { OnErr result (rules.new.items ≡ rules.old.items) }
{
    let place = place_of(rules.as_slice(), &key);
    let lower = number_after(rules.as_slice(), place);
    let upper = number_before(rules.as_slice(), place);
    if upper - lower >= 2 {
        insert_halfway(rules, place, key)
    } else {
        let window = least_window(rules.as_slice(), place);
        insert_spread(rules, place, key, window)
    }
}
