//! Laws of blocks.
ghost use Rattle.blocks.specs.Law.{OneNode, OneBlock, BothForms, OnlyGreatest, WorkedBlock};

/// States that a node and its blocks, one of each form, stand for each other.
pub fn blocks_stand_for_nodes()
    ensures node { OneNode }
    ensures block { OneBlock }
    ensures forms { BothForms }
    ensures greatest { OnlyGreatest }
    ensures worked { WorkedBlock }
{}
