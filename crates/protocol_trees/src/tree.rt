// Trees of futures as code sees them.
ghost use Rattle.std.specs.Prelude.{◌≡◌, ◌<◌, List, Some, length};
ghost use Rattle.std.specs.List.{slice_get};
ghost use Rattle.journal_model.specs.AwaitTree.{AwaitTree as Trees};
ghost use Rattle.protocol_trees.specs.Shape.{IsShaped};
ghost use Rattle.protocol_trees.specs.declared.tree.AwaitTreeShape.{AwaitTreeShape as Shapes};

/// What a leaf or a tree has come to.
#[derive(Debug, Clone, Copy, PartialEq, Eq)]
pub enum AwaitState {
    Pending,
    Succeeded,
    Failed,
}

/// One leaf, or how a node combines its children.
#[derive(Debug, Clone, Copy, PartialEq, Eq)]
pub enum AwaitTreeShape {
    /// The tree is its one leaf.
    Single,
    FirstCompleted,
    AllCompleted,
    FirstSucceededOrAllFailed,
    AllSucceededOrFirstFailed,
    Unknown,
    /// So many children have to succeed.
    AtLeast(u32),
}

/// A tree of futures, looked at in place: a finite tree, each child a smaller one.
///
/// Its children are its leaves, and behind them the trees in it.
pub trait AwaitTree: Copy {
    /// A leaf, as code names it.
    type Leaf;

    // What a leaf means.
    ghost Meant: { Type 0 };

    ghost meant: { Self.Leaf → Meant };

    // The tree over these meanings.
    ghost tree: { Self → Trees Meant };

    ghost shape_of: { Self → Shapes };

    ghost leaves_of: { Self → List Meant };

    ghost children_of: { Self → List (Trees Meant) };

    ghost is_shaped: { (t : Self) → IsShaped (shape_of t) (leaves_of t) (children_of t) (tree t) };

    /// One leaf, or how it combines its children.
    fn shape(self) -> AwaitTreeShape
        ensures { result ≡ shape_of self };

    /// How many leaves it has itself. A node may have several lists of leaves, so the number may pass a `usize`.
    fn leaf_count(self) -> u128
        ensures { result ≡ length (leaves_of self) };

    /// The leaf at this place, from 0 on.
    fn leaf(self, index: u128) -> Self::Leaf
        requires { index < length (leaves_of self) }
        ensures { slice_get (leaves_of self) index ≡ Some (meant result) };

    /// How many trees stand in it, behind its leaves.
    fn child_count(self) -> usize
        ensures { result ≡ length (children_of self) };

    /// The tree at this place, from 0 on.
    fn child(self, index: usize) -> Self
        requires { index < length (children_of self) }
        ensures { slice_get (children_of self) index ≡ Some (tree result) };
}
