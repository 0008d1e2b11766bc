//! Nodes by their depths, and by their child counts.
#![tactic(auto)]

ghost use Rattle.depths.specs.Theorems.{NestedTree, TreeNested, NestedBack, FewChildren};
ghost use Rattle.depths.specs.Theorems.{NestedGrows, TreeDepths, WordsSame};

/// What is proved of nodes by their depths, whatever they hold and are written as. It does nothing: its contract is the
/// statements.
pub fn theorems<X, W>()
    ensures nested_tree { NestedTree X }
    ensures tree_nested { TreeNested X }
    ensures nested_back { NestedBack }
    ensures few_children { FewChildren }
    ensures nested_grows { NestedGrows X }
    ensures tree_depths { TreeDepths X }
    ensures words_same { WordsSame X W }
{}
