ghost use Rattle.std.specs.Prelude.{◌≡◌, ◌≤◌, ◌<◌, ◌+◌, ℕ, List, length, false, MatchOption};
ghost use Rattle.priority_assign.specs.Rules.{number_before, number_after, most_rules};
ghost use Rattle.priority_assign.specs.Search.{is_loose, IsNearestLoose, NoneNarrower, NoneEnding};
ghost use Rattle.priority_assign.specs.Windows.{has_room, least_window, fits, IsFirstBegin, IsLeast};
ghost use Rattle.priority_assign.specs.declared.numbered.Numbered.{Numbered};

use crate::numbered::Numbered;

/// A number above those of all rules.
pub const ABOVE_ALL: u16 = 64001;

/// A number below those of all rules.
pub const BELOW_ALL: u16 = 99;

/// Consecutive rules, one that is inserted among them: `begin` others stand before them.
#[derive(Clone, Copy)]
pub struct Window {
    pub begin: usize,
    pub width: usize,
}

/// The number of the rule next before a place, the one above all where there is none.
pub fn number_before(rules: &[Numbered], place: usize) -> u16
    requires { place ≤ length rules.now }
    ensures { result ≡ number_before rules.now place }
{
    if place == 0 {
        ABOVE_ALL
    } else {
        rules[place - 1].number
    }
}

/// The number of the rule next after a place, the one below all where there is none.
pub fn number_after(rules: &[Numbered], place: usize) -> u16
    ensures { result ≡ number_after rules.now place }
{
    match rules.get(place) {
        Some(rule) => rule.number,
        None => BELOW_ALL,
    }
}

fn has_room(rules: &[Numbered], window: Window) -> bool
    requires few { length rules.now < most_rules }
    requires wide { 0 < window.width }
    requires within { window.begin + window.width ≤ length rules.now + 1 }
    ensures { result ≡ has_room rules.now window }
{
    let upper = number_before(rules, window.begin);
    let lower = number_after(rules, window.begin + window.width - 1);
    let between = upper.saturating_sub(lower).saturating_sub(1);
    2 * window.width <= usize::from(between)
}

/// Whether the window holds no more than all rules and has room.
fn fits(rules: &[Numbered], place: usize, window: Window) -> bool
    requires few { length rules.now < most_rules }
    requires within { place ≤ length rules.now }
    requires from { window.begin ≤ place }
    requires to { place < window.begin + window.width }
    requires narrow { window.width ≤ length rules.now }
    ensures { result ≡ fits rules.now place window }
{
    window.begin + window.width <= rules.len() + 1 && has_room(rules, window)
}

/// Whether the rules from `begin` up to `place` have more than two numbers each.
fn is_loose(rules: &[Numbered], place: usize, begin: usize) -> bool
    requires few { length rules.now < most_rules }
    requires before { begin < place }
    requires within { place ≤ length rules.now }
    ensures { result ≡ is_loose rules.now place begin }
{
    let upper = usize::from(number_before(rules, begin));
    let here = usize::from(number_before(rules, place));
    here + 2 * (place - begin) < upper
}

/// The nearest loose place once windows of this width were looked at.
fn next_loose(rules: &[Numbered], place: usize, width: usize, loose: Option<usize>) -> Option<usize>
    requires few { length rules.now < most_rules }
    requires within { place ≤ length rules.now }
    requires wide { 0 < width }
    requires loose { IsNearestLoose rules.now place width loose }
    ensures { IsNearestLoose rules.now place (width + 1) result }
{
    if loose.is_none() && 1 < width && width <= place + 1 {
        let begin = place + 1 - width;
        if is_loose(rules, place, begin) {
            return Some(begin);
        }
    }
    loose
}

/// Where the window of this width that ends with `place` begins, if it fits.
fn ending(rules: &[Numbered], place: usize, width: usize) -> Option<usize>
    requires few { length rules.now < most_rules }
    requires within { place ≤ length rules.now }
    requires wide { 0 < width }
    requires narrow { width ≤ length rules.now }
    ensures { MatchOption result (NoneEnding rules.now place width)
        (λ b. IsFirstBegin rules.now place width b) }
{
    if place + 1 < width {
        return None;
    }
    let begin = place + 1 - width;
    fits(rules, place, Window { begin, width }).then_some(begin)
}

/// The first place where a window of this width with room for a rule at `place` begins. Where no narrower
/// window has room, one of this width can have it only where `place` is the last or the first in it, or
/// from the nearest loose place on.
fn first_begin(
    rules: &[Numbered],
    place: usize,
    width: usize,
    loose: Option<usize>,
) -> Option<usize>
    requires few { length rules.now < most_rules }
    requires within { place ≤ length rules.now }
    requires wide { 0 < width }
    requires narrow { width ≤ length rules.now }
    requires full { number_before rules.now place ≡ number_after rules.now place + 1 }
    requires least { NoneNarrower rules.now place width }
    requires loose { IsNearestLoose rules.now place width loose }
    ensures { MatchOption result
        ((b : ℕ) → fits rules.now place (record { begin = b; width = width }) ≡ false)
        (λ b. IsFirstBegin rules.now place width b) }
{
    if let Some(begin) = ending(rules, place, width) {
        return Some(begin);
    }
    if let Some(begin) = loose {
        if fits(rules, place, Window { begin, width }) {
            return Some(begin);
        }
    }
    let begin = place;
    fits(rules, place, Window { begin, width }).then_some(begin)
}

/// Of the windows with room the narrowest, and of those as wide the one that begins first. It looks at a
/// few windows of each width, so that it costs as much as the window is wide.
pub fn least_window(rules: &[Numbered], place: usize) -> Window
    requires few { length rules.now < most_rules }
    requires within { place ≤ length rules.now }
    requires full { number_before rules.now place ≡ number_after rules.now place + 1 }
    ensures { result ≡ least_window rules.now place }
{
    let mut loose = None;
    for width in 1..rules.len() + 1 {
        if let Some(begin) = first_begin(rules, place, width, loose) {
            return Window { begin, width };
        }
        loose = next_loose(rules, place, width, loose);
    }
    Window {
        begin: 0,
        width: rules.len() + 1,
    }
}

/// The law of the least window: while there are fewer than 16,000 rules, some window has room for one more.
pub fn least_window_law()
    ensures { (rules : List Numbered) (place : ℕ) → length rules < most_rules → place ≤ length rules
        → IsLeast rules place (least_window rules place) }
{}
