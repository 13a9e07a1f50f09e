//! What holds of the bytes that a metadata store leaves, on any depot: laws on the definitions, with no code.

ghost use Rattle.dl_meta.specs.Laws.{GivesBack, DamageIsOne};

/// Bytes that hold the items of a node are loaded as that node: they are not damaged, they hold some item, and they hold the
/// items of no other node. So what a store had in force is what a load gives.
pub fn loads_give_back()
    ensures { GivesBack }
{}

/// The bytes of a file are damaged at one place at most. Those of an empty file, and of a journal without a batch in force, are
/// not damaged. So a load that the device and the memory let through has one answer.
pub fn damage_is_one()
    ensures { DamageIsOne }
{}
