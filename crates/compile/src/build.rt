//! The table of a policy's tree, built by the walk over its nodes: each table stands where it is built, and is joined
//! with the one before it. The buffers and the place stay parameters, as in `rows` and `common`, which take them so; so
//! do the file and a spot in it, since the spot alone moves on. The crate `tree` has the like walk: it hands on a
//! value, this one buffers and a place, and may end for want of room.

ghost use Rattle.nodes.specs.Nodes.{cells_at};
ghost use Rattle.compile.specs.Build.{AtNode, AtPlace, OfNode, OfBuilt};
ghost use Rattle.compile.specs.Build.{NodeBuilt, TreeBuilt, ChildrenBuilt, JoinBuilt};

use crate::rows::{join, own_rows};
use nodes::{File, Spot};
use policy::Node;

// A table that was built: the place past its end, and the place of the nodes behind its own.
#[derive(Clone, Copy)]
pub(crate) struct BuiltTable {
    pub(crate) end: usize,
    pub(crate) next: Spot,
}

// The table of the subtree at a place: the node's own rows, joined with its children's. It and
// `children` call each other: at each place the atoms start where those of the nodes before end,
// and fewer nodes are left.
#[cycle(children_subtree)]
pub(crate) fn subtree(
    file: File,
    at: Spot,
    table: &mut [u32],
    scratch: &mut [u32],
    start: usize,
) -> Option<BuiltTable>
    requires { AtNode file.words.now at start table.old scratch.old }
    ensures { TreeBuilt file.entry.words.now at start table.old table.new result }
{
    let node = file.node_at(at.nodes_left);
    let own = node_rows(file, at, node, table, scratch, start)?;
    let middle = own.end;
    let rest = children(
        file,
        own.next,
        node.sibling,
        node.children,
        table,
        scratch,
        middle,
    )?;
    join_built(file, node.parent, table, scratch, start, middle, rest)
}

// The table of so many children from a place on, folded from the last under a sibling operator.
#[cycle(children_subtree)]
fn children(
    file: File,
    at: Spot,
    sibling: u32,
    count: u32,
    table: &mut [u32],
    scratch: &mut [u32],
    start: usize,
) -> Option<BuiltTable>
    requires { AtPlace file.words.now at start table.old scratch.old }
    ensures { ChildrenBuilt file.entry.words.now at sibling count start table.old
        table.new result }
{
    if (count == 0) | (at.nodes_left == 0) {
        return Some(BuiltTable {
            end: start,
            next: at,
        });
    }
    let first = subtree(file, at, table, scratch, start)?;
    let middle = first.end;
    let rest = children(file, first.next, sibling, count - 1, table, scratch, middle)?;
    join_built(file, sibling, table, scratch, start, middle, rest)
}

// The table of a node's own atoms, and the place of its first child.
fn node_rows(
    file: File,
    at: Spot,
    node: Node,
    table: &mut [u32],
    scratch: &mut [u32],
    start: usize,
) -> Option<BuiltTable>
    requires { OfNode file.words.now at node start table.old scratch.old }
    ensures { NodeBuilt file.entry.words.now at start table.old table.new result }
{
    let end = own_rows(
        file.operator_at(node.inner),
        file.atoms_at(at.next_atom, node.own),
        table,
        scratch,
        start,
    )?;
    let next = at.behind_own(node);
    Some(BuiltTable { end, next })
}

// Joins the table that was built from the middle on with the one that stands from the start up to
// there.
fn join_built(
    file: File,
    index: u32,
    table: &mut [u32],
    scratch: &mut [u32],
    start: usize,
    middle: usize,
    rest: BuiltTable,
) -> Option<BuiltTable>
    requires { OfBuilt start middle rest table.old scratch.old }
    ensures { JoinBuilt (cells_at file.entry.words.now index) start middle rest table.old
        table.new result }
{
    let operator = file.operator_at(index);
    let end = join(operator, table, scratch, start, middle, rest.end)?;
    Some(BuiltTable {
        end,
        next: rest.next,
    })
}
