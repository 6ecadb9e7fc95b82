//! What a line of the input is.
ghost use Rattle.std.proofs.Common.{rules};
ghost use Rattle.std.proofs.lemmas.Grind.{common_steps};
ghost use Rattle.std.specs.Prelude.{◌≡◌, IfOk};

use cl_types::{Copies, List, NoMemory, Text};
use cluster_types::RefItem;
use control_lines::{Control, NodeOrder};

/// What a line says.
#[derive(Clone, Debug, Drop)]
pub enum LineItem {
    /// Objects that are put or removed, in order. Of a List the items of kinds that aren't read are left out.
    Objects(List<RefItem>),
    /// An object of this kind, which isn't read, or a BOOKMARK.
    Ignored(Text),
    /// An order to the controller.
    Control(Control),
    /// An order to the agent of a node.
    Order(NodeOrder),
    Blank,
}

impl Copies for LineItem {
    ghost exact = { λ x y h. Prim.search (rules, common_steps) };
}
