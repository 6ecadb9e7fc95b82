//! Laws of the definitions that the contracts cite. Each function does nothing; its clause is the law.

ghost use Rattle.std.specs.Prelude.{◌≡◌, ◌+◌, ◌^◌, ◌<◌, ◌≤◌, ◌↔◌, ℕ, List, Some};
ghost use Rattle.std.specs.Cmp.{IsTotalOrder};
ghost use Rattle.std.specs.declared.cmp.Ordering.TheVariants.{Equal};
ghost use Rattle.cl_types.specs.declared.addr.Addr.{Addr};
ghost use Rattle.cl_types.specs.declared.addr.Addr.TheVariants.{V4};
ghost use Rattle.cl_types.specs.declared.keys.RuleKey.{RuleKey};
ghost use Rattle.cl_types.specs.declared.keys.PodKey.{PodKey};
ghost use Rattle.cl_types.specs.Addr.{addr_order, width_of, number_of};
ghost use Rattle.cl_types.specs.PolicyName.{PolicyName, IsPolicyName, HasNoSlash};
ghost use Rattle.cl_types.specs.RuleOrder.{pod_order, policy_order, rule_order};
ghost use Rattle.cl_types.specs.Reading.{IsAddress, IsPrefix};
ghost use Rattle.cl_types.specs.ReadText.{read_address, read_block};
ghost use Rattle.cl_types.specs.Prefix.{PrefixData, IsBlock};
ghost use Rattle.cl_types.specs.Written.{longest_run, IsZeroRun, address_text, prefix_text, policy_text, rule_text, pod_text, HasName};

/// Only equal addresses, pods, policies and rules stand at one place of their order.
pub fn orders_are_exact()
    ensures addresses { (a b : Addr) → addr_order a b ≡ Equal → a ≡ b }
    ensures pods { (a b : PodKey) → pod_order a b ≡ Equal → a ≡ b }
    ensures policies { (a b : PolicyName) → policy_order a b ≡ Equal → a ≡ b }
    ensures rules { (a b : RuleKey) → rule_order a b ≡ Equal → a ≡ b }
{}

/// The orders of addresses, pods, policies and rules are total orders: of two that differ one is less, and
/// what is less than a lesser one is less.
pub fn orders_are_total()
    ensures addresses { IsTotalOrder addr_order }
    ensures pods { IsTotalOrder pod_order }
    ensures policies { IsTotalOrder policy_order }
    ensures rules { IsTotalOrder rule_order }
{}

/// A text is a form of one address at most, and of one prefix at most.
pub fn texts_have_one_reading()
    ensures addresses { (text : List ℕ) (a b : Addr) → IsAddress text a → IsAddress text b → a ≡ b }
    ensures prefixes { (text : List ℕ) (p q : PrefixData) → IsPrefix text p → IsPrefix text q → p ≡ q }
{}

/// The functions that read an address and a block of their texts agree with the grammar.
pub fn texts_are_read_as_functions()
    ensures addresses { (text : List ℕ) (a : Addr) → ((read_address text ≡ Some a) ↔ IsAddress text a) }
    ensures blocks { (text : List ℕ) (b : PrefixData) → ((read_block text ≡ Some b) ↔ IsPrefix text b) }
{}

/// Different policies have different texts. So have rules that differ in policy, direction or index, and
/// pods whose namespaces have no `/`.
pub fn texts_tell_names_apart()
    ensures policies { (a b : PolicyName) → IsPolicyName a.kind a.namespace a.name
        → IsPolicyName b.kind b.namespace b.name → policy_text a ≡ policy_text b → a ≡ b }
    ensures rules { (a b : RuleKey) → HasName a → HasName b → rule_text a ≡ rule_text b
        → (a.policy ≡ b.policy) × (a.dir ≡ b.dir) × (a.index ≡ b.index) }
    ensures pods { (a b : PodKey) → HasNoSlash a.namespace → HasNoSlash b.namespace
        → pod_text a ≡ pod_text b → a ≡ b }
{}

/// The text that is written for an address or a prefix is read as that address or prefix.
pub fn written_is_read()
    ensures addresses { (a : Addr) → number_of a < 2 ^ width_of a → IsAddress (address_text a) a }
    ensures prefixes { (b : PrefixData) → number_of b.base < 2 ^ width_of b.base → IsBlock b.base b.len
        → IsPrefix (prefix_text b) b }
{}

/// A text of an IPv4 address is the one that is written.
pub fn decimals_have_one_text()
    ensures { (text : List ℕ) (n : ℕ) → IsAddress text (V4 n) → (text ≡ address_text (V4 n)) × (n < 2 ^ width_of (V4 n)) }
{}

/// `::` stands for zero groups alone. No run of zero groups is longer than the one that it stands for, and
/// of equally long ones it stands for the first (RFC 5952).
pub fn gap_is_the_longest_run()
    ensures zeros { (gs : List ℕ) → IsZeroRun gs (longest_run 0 gs).start (longest_run 0 gs).len }
    ensures longest { (gs : List ℕ) (start len : ℕ) → IsZeroRun gs start len
        → len ≤ (longest_run 0 gs).len }
    ensures first { (gs : List ℕ) (start len : ℕ) → IsZeroRun gs start len
        → len ≡ (longest_run 0 gs).len → (longest_run 0 gs).start ≤ start }
{}
