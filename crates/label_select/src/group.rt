ghost use Rattle.std.proofs.Common.{rules};
ghost use Rattle.std.proofs.lemmas.Grind.{common_steps};
ghost use Rattle.std.specs.Prelude.{◌≡◌};
ghost use Rattle.label_select.specs.Group.{group_has};

use crate::labels::Labels;
use crate::selector::Selector;
use cl_types::{Copies, NoMemory, Same, Text};
use std::marker::Model;

/// The namespaces of a group's pods: one by its name, or all that a selector selects.
#[derive(Clone, Debug, Drop)]
pub enum Scope {
    Namespace(Text),
    Namespaces(Selector),
}

impl Copies for Scope {
    ghost exact = { λ x y h. Prim.search (rules, common_steps) };
}

impl Same for Scope {
    fn same(&self, other: &Scope) -> bool {
        match (self, other) {
            (Scope::Namespace(a), Scope::Namespace(b)) => a.same(b),
            (Scope::Namespaces(a), Scope::Namespaces(b)) => a.same(b),
            _ => false,
        }
    }
}

/// A group of pods: those in the scope that the selector selects. A scope by name has the form of a
/// namespace's name.
#[derive(Clone, Debug, Drop)]
pub struct GroupKey {
    pub scope: Scope,
    pub pods: Selector,
}

impl Model for GroupKey {
    ghost use Rattle.label_select.specs.Group.{Group, IsScope};

    ghost Value = { Group };

    ghost view = { λ g. record { scope = g.scope; pods = g.pods } };

    ghost invariant = { λ g. IsScope g.scope };
}

impl GroupKey {
    /// Whether the group contains a pod with these labels in this namespace, if the pod counts. A scope by
    /// selector selects by the labels of the namespace.
    pub fn has(&self, namespace: &Text, ns_labels: &Labels, labels: &Labels) -> bool
        ensures { result ≡ group_has self.now namespace.now ns_labels.now labels.now }
    {
        let in_scope = match &self.scope {
            Scope::Namespace(name) => name == namespace,
            Scope::Namespaces(selector) => selector.selects(ns_labels),
        };
        in_scope && self.pods.selects(labels)
    }
}

impl Copies for GroupKey {
    ghost exact = { λ x y h. Prim.search (rules, common_steps) };
}

impl Same for GroupKey {
    fn same(&self, other: &GroupKey) -> bool {
        self.scope.same(&other.scope) && self.pods.same(&other.pods)
    }
}
