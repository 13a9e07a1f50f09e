//! What holds of a storage node, whatever it takes, and of the bytes of the items of both kinds of nodes: laws on their
//! definitions, with no code.

ghost use Rattle.dl_rules_nodes.specs.Laws.{DurableItemsOnlyGrow, CommitsMoveItems, FencesStay, LengthsAreOfBytes, ItemsAreExact, BodiesAreExact, MetaItemsAreExact, MetaListsAreExact};

/// A message changes no durable item, and a commit puts the queued items behind them; one that was stopped does so, or leaves
/// them as they are.
pub fn durable_items_only_grow()
    ensures { DurableItemsOnlyGrow }
{}

/// A commit moves the queued items behind the durable ones, and makes none.
pub fn commits_move_items()
    ensures { CommitsMoveItems }
{}

/// A durable fence stays.
pub fn fences_stay()
    ensures { FencesStay }
{}

/// The length of an item, and of a batch's body, is that of its bytes.
pub fn lengths_are_of_bytes()
    ensures { LengthsAreOfBytes }
{}

/// Each item is read from its one spelling, and what is read is spelt so.
pub fn items_are_exact()
    ensures { ItemsAreExact }
{}

/// The body of a batch is read as its items, and as no others.
pub fn bodies_are_exact()
    ensures { BodiesAreExact }
{}

/// Each item of the metadata node that may come is read from its one spelling, and what is read may come and is spelt so.
pub fn meta_items_are_exact()
    ensures { MetaItemsAreExact }
{}

/// A metadata node is loaded from the bodies of its items, and from no others.
pub fn meta_lists_are_exact()
    ensures { MetaListsAreExact }
{}
