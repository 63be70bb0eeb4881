//! The nodes of an ordered index, one for each place.
ghost use Rattle.std.specs.Prelude.{◌≡◌, ℕ, ◌+◌, ◌<◌, ◌≤◌, ◌^◌, max, true, false, cond, Some, [], length, map, slice_get, slice_set, vec_len, OnOk, OnErr, IfOk, IsOk};
ghost use Rattle.bimap_base.specs.Digits.{most_height};
ghost use Rattle.bimap_base.specs.declared.cells.Node.{Node};
ghost use Rattle.bimap_base.specs.NodesInCells.{IsThere, IsAmong, CanCount, counted, link_of, linked, recounted, narrow_node, wide_node, nodes_in};

mod copy;

use crate::meter::Meter;
use crate::refusal::NoMemory;
use std::alloc::Global;
use std::marker::Model;

/// A node of a tree. It stores the places of its children, and the height and the size of the subtree whose root it is.
#[derive(Clone, Copy)]
pub struct Node {
    pub left: Option<usize>,
    pub right: Option<usize>,
    pub height: usize,
    pub size: usize,
}

const NO_NODE: Node = Node {
    left: None,
    right: None,
    height: 0,
    size: 0,
};

/// The stored form of a node, while there are few enough places for it.
pub trait Cell: Copy + Drop {
    ghost use Rattle.bimap_base.specs.declared.cells.Node.{Node};

    /// The node that the cell stores.
    ghost node_in: { Self → Node };

    /// There are always fewer places than this number.
    ghost most: { ℕ };

    /// Returns the cell that stores a node.
    fn of(node: Node) -> Self
        requires { (n : ℕ) × (n < most) × IsAmong n node }
        ensures { node_in result ≡ node };

    /// Returns the node that the cell stores.
    fn node(self) -> Node
        ensures { result ≡ node_in self };

    /// Returns the child in the direction `direction`, which is right if it is true. Reads nothing else of the node.
    fn child(self, direction: bool) -> Option<usize>
        ensures { result ≡ cond direction (node_in self).right (node_in self).left };

    /// Returns a cell of the same node with another child in the direction `direction`.
    fn linked(self, direction: bool, child: Option<usize>) -> Self
        requires { (n : ℕ) × (n < most) × IsThere n child }
        ensures { node_in result ≡ linked direction child (node_in self) };

    /// Returns a cell of the same node with one place more in its subtree if `grew` is true, or one less if not.
    fn counted(self, grew: bool) -> Self
        requires { (n : ℕ) × (n < most) × CanCount n grew (node_in self) }
        ensures { node_in result ≡ counted grew (node_in self) };
}

/// A node in 12 bytes, for fewer than 2^26 places. A link is the place of a child plus one, or 0 for no child. `count` is the
/// height times 2^26, plus the size.
#[derive(Clone, Copy)]
pub struct NarrowCell {
    left: u32,
    right: u32,
    count: u32,
}

/// A node in 32 bytes, for any number of places.
#[derive(Clone, Copy)]
pub struct WideCell {
    left: usize,
    right: usize,
    height: usize,
    size: usize,
}

// From this count of places on, narrow cells are too narrow.
const WIDE: usize = 67_108_864;

/// Nodes by place, in cells of one width. Each public call except `clone` takes constant time and allocates nothing.
#[derive(Drop)]
pub struct Nodes<C: Cell> {
    cells: Vec<C>,
}

impl<C: Cell> Model for Nodes<C> {
    ghost use Rattle.std.specs.Prelude.{List, ◌<◌, length, map};
    ghost use Rattle.bimap_base.specs.declared.cells.Node.{Node};

    ghost Value = { List Node };

    ghost view = { λ n. map C.node_in n.cells.items };

    ghost invariant = { λ n. length n.cells.items < C.most };
}

/// A node for each place below some number. A node takes 12 bytes while there are fewer than 2^26 nodes. From then on it takes
/// 32 bytes.
///
/// Only `read`, `cell`, `write`, `set_child`, `recount` and `count` reach a single node. Each of them counts one touch.
/// `clone` copies the cells without reading them, and counts nothing.
#[derive(Drop)]
pub enum Cells {
    Narrow(Nodes<NarrowCell>),
    Wide(Nodes<WideCell>),
}

fn link_to(child: Option<usize>) -> usize
    requires { (n : ℕ) × (IsThere n child × n < 2 ^ 64) }
    ensures link { link_of result ≡ child }
    ensures within { (n : ℕ) → IsThere n child → result ≤ n }
{
    match child {
        None => 0,
        Some(place) => place + 1,
    }
}

fn child_of(link: usize) -> Option<usize>
    ensures { result ≡ link_of link }
{
    if link == 0 { None } else { Some(link - 1) }
}

impl NarrowCell {
    fn widened(self) -> WideCell
        ensures { wide_node result ≡ narrow_node self }
    {
        let count = self.count as usize;
        WideCell {
            left: self.left as usize,
            right: self.right as usize,
            height: count / WIDE,
            size: count % WIDE,
        }
    }
}

impl Cell for NarrowCell {
    ghost node_in = { narrow_node };

    ghost most = { 2 ^ 26 };

    #[inline(always)]
    fn of(node: Node) -> Self {
        NarrowCell {
            left: link_to(node.left) as u32,
            right: link_to(node.right) as u32,
            count: (node.height * WIDE + node.size) as u32,
        }
    }

    #[inline(always)]
    fn node(self) -> Node {
        self.widened().node()
    }

    #[inline(always)]
    fn child(self, direction: bool) -> Option<usize> {
        let link = if direction { self.right } else { self.left };
        child_of(link as usize)
    }

    #[inline(always)]
    fn linked(self, direction: bool, child: Option<usize>) -> Self {
        let link = link_to(child) as u32;
        NarrowCell {
            left: if direction { self.left } else { link },
            right: if direction { link } else { self.right },
            count: self.count,
        }
    }

    #[inline(always)]
    fn counted(self, grew: bool) -> Self {
        NarrowCell {
            left: self.left,
            right: self.right,
            count: if grew { self.count + 1 } else { self.count - 1 },
        }
    }
}

impl Cell for WideCell {
    ghost node_in = { wide_node };

    ghost most = { 2 ^ 64 };

    #[inline(always)]
    fn of(node: Node) -> Self {
        WideCell {
            left: link_to(node.left),
            right: link_to(node.right),
            height: node.height,
            size: node.size,
        }
    }

    #[inline(always)]
    fn node(self) -> Node {
        Node {
            left: child_of(self.left),
            right: child_of(self.right),
            height: self.height,
            size: self.size,
        }
    }

    #[inline(always)]
    fn child(self, direction: bool) -> Option<usize> {
        child_of(if direction { self.right } else { self.left })
    }

    #[inline(always)]
    fn linked(self, direction: bool, child: Option<usize>) -> Self {
        let link = link_to(child);
        WideCell {
            left: if direction { self.left } else { link },
            right: if direction { link } else { self.right },
            height: self.height,
            size: self.size,
        }
    }

    #[inline(always)]
    fn counted(self, grew: bool) -> Self {
        WideCell {
            left: self.left,
            right: self.right,
            height: self.height,
            size: if grew { self.size + 1 } else { self.size - 1 },
        }
    }
}

impl<C: Cell> Nodes<C> {
    // Returns an empty list of nodes. Never allocates.
    fn new(alloc: Global) -> Self
        requires { 0 < C.most }
        ensures { result ≡ [] }
    {
        Nodes {
            cells: Vec::new(alloc),
        }
    }

    /// Returns the number of nodes.
    #[inline(always)]
    pub fn places(&self) -> usize
        ensures { result ≡ length self.now }
    {
        self.cells.len()
    }

    // Appends empty nodes up to `to`, and allocates exactly as many. If it runs out of memory, nothing changes.
    fn extend(&mut self, to: usize) -> Result<(), NoMemory>
        requires more { length self.old ≤ to }
        requires few { to < C.most }
        ensures ok { OnOk result (length self.new ≡ to) }
        ensures kept { (place : ℕ) → place < length self.old →
            slice_get self.new place ≡ slice_get self.old place }
        ensures err { OnErr result (self.new ≡ self.old) }
    {
        if self.cells.try_reserve_exact(to - self.cells.len()).is_err() {
            return Err(NoMemory);
        }
        let Ok(()) = self.cells.resize(to, C::of(NO_NODE)) else {
            unreachable!();
        };
        Ok(())
    }

    /// Returns the node of a place.
    #[inline(always)]
    pub fn read<M: Meter>(&self, place: usize, meter: &mut M) -> Node
        requires { place < length self.now }
        ensures node { slice_get self.now place ≡ Some result }
        ensures comparisons { M.comparisons meter.new ≡ M.comparisons meter.old }
        ensures touches { M.touches meter.new ≡ M.touches meter.old + 1 }
    {
        self.cell(place, meter).node()
    }

    /// Returns the cell that stores the node of a place.
    #[inline(always)]
    pub fn cell<M: Meter>(&self, place: usize, meter: &mut M) -> C
        requires { place < length self.now }
        ensures node { slice_get self.now place ≡ Some (C.node_in result) }
        ensures comparisons { M.comparisons meter.new ≡ M.comparisons meter.old }
        ensures touches { M.touches meter.new ≡ M.touches meter.old + 1 }
    {
        meter.touched();
        self.cells[place]
    }

    /// Writes the node of a place.
    #[inline(always)]
    pub fn write<M: Meter>(&mut self, place: usize, node: Node, meter: &mut M)
        requires place { place < length self.old }
        requires left { IsThere (length self.old) node.left }
        requires right { IsThere (length self.old) node.right }

        // A cell can store one level more than the bound for a balanced tree of all places, and the number of all places.
        requires height { node.height ≤ most_height (length self.old) + 1 }
        requires size { node.size ≤ length self.old }

        ensures written { self.new ≡ slice_set self.old place node }
        ensures comparisons { M.comparisons meter.new ≡ M.comparisons meter.old }
        ensures touches { M.touches meter.new ≡ M.touches meter.old + 1 }
    {
        meter.touched();
        let cells = &mut self.cells;
        cells[place] = C::of(node);
    }

    /// Replaces the child of a place's node in the direction `direction`.
    #[inline(always)]
    pub fn set_child<M: Meter>(
        &mut self,
        place: usize,
        direction: bool,
        child: Option<usize>,
        meter: &mut M,
    )
        requires place { place < length self.old }
        requires child { IsThere (length self.old) child }
        ensures written { (n : Node) → slice_get self.old place ≡ Some n →
            self.new ≡ slice_set self.old place (linked direction child n) }
        ensures comparisons { M.comparisons meter.new ≡ M.comparisons meter.old }
        ensures touches { M.touches meter.new ≡ M.touches meter.old + 1 }
    {
        meter.touched();
        let cells = &mut self.cells;
        cells[place] = cells[place].linked(direction, child);
    }

    /// Replaces the child of a place's node in the direction `direction`, and counts one place more or less in its subtree.
    #[inline(always)]
    pub fn recount<M: Meter>(
        &mut self,
        place: usize,
        direction: bool,
        child: Option<usize>,
        grew: bool,
        meter: &mut M,
    )
        requires child { IsThere (length self.old) child }
        requires count { (n : Node) × (slice_get self.old place ≡ Some n)
            × CanCount (length self.old) grew n }
        ensures written { (n : Node) → slice_get self.old place ≡ Some n →
            self.new ≡ slice_set self.old place (recounted direction child grew n) }
        ensures comparisons { M.comparisons meter.new ≡ M.comparisons meter.old }
        ensures touches { M.touches meter.new ≡ M.touches meter.old + 1 }
    {
        meter.touched();
        let cells = &mut self.cells;
        cells[place] = cells[place].linked(direction, child).counted(grew);
    }

    /// Counts one place more or less in the subtree of a place.
    #[inline(always)]
    pub fn count<M: Meter>(&mut self, place: usize, grew: bool, meter: &mut M)
        requires { (n : Node) × (slice_get self.old place ≡ Some n)
            × CanCount (length self.old) grew n }
        ensures written { (n : Node) → slice_get self.old place ≡ Some n →
            self.new ≡ slice_set self.old place (counted grew n) }
        ensures comparisons { M.comparisons meter.new ≡ M.comparisons meter.old }
        ensures touches { M.touches meter.new ≡ M.touches meter.old + 1 }
    {
        meter.touched();
        let cells = &mut self.cells;
        cells[place] = cells[place].counted(grew);
    }
}

// Returns the same nodes in wide cells, with empty nodes after them up to `to`.
fn widened(narrow: &Nodes<NarrowCell>, to: usize) -> Result<Nodes<WideCell>, NoMemory>
    requires { length narrow.now ≤ to }
    ensures len { IfOk result (λ wide. length wide ≡ to) }
    ensures kept { IfOk result (λ wide. (place : ℕ) → place < length narrow.now →
        slice_get wide place ≡ slice_get narrow.now place) }
{
    let narrow = &narrow.cells;
    let Ok(mut wide) = Vec::with_capacity(*narrow.allocator(), to) else {
        return Err(NoMemory);
    };
    for cell in narrow {
        wide.push_reserved(cell.widened());
    }
    let Ok(()) = wide.resize(to, WideCell::of(NO_NODE)) else {
        unreachable!();
    };
    Ok(Nodes { cells: wide })
}

impl Cells {
    /// Returns an empty list of nodes. Never allocates.
    pub fn new(alloc: Global) -> Self
        ensures { nodes_in result ≡ [] }
    {
        Cells::Narrow(Nodes::new(alloc))
    }

    /// Returns the number of nodes.
    pub fn places(&self) -> usize
        ensures { result ≡ length (nodes_in self.now) }
    {
        match self {
            Cells::Narrow(nodes) => nodes.places(),
            Cells::Wide(nodes) => nodes.places(),
        }
    }

    /// Makes a node for each place below `to` that has none. The time is at most proportional to `to`. If there are 2^26 nodes or
    /// more afterwards, all nodes are in wide cells.
    ///
    /// Allocates only if nodes are missing. If it runs out of memory, nothing changes.
    pub fn grow(&mut self, to: usize) -> Result<(), NoMemory>
        ensures ok { OnOk result (length (nodes_in self.new)
            ≡ max (length (nodes_in self.old)) to) }
        ensures kept { (place : ℕ) → place < length (nodes_in self.old) →
            slice_get (nodes_in self.new) place ≡ slice_get (nodes_in self.old) place }
        ensures err { OnErr result (nodes_in self.new ≡ nodes_in self.old) }
        ensures enough { to ≤ length (nodes_in self.old) → IsOk result }
        ensures unchanged { to ≤ length (nodes_in self.old) → self.new ≡ self.old }
    {
        if to <= self.places() {
            return Ok(());
        }
        match self {
            Cells::Narrow(nodes) => {
                if to < WIDE {
                    return nodes.extend(to);
                }
                let wide = widened(nodes, to)?;
                *self = Cells::Wide(wide);
                Ok(())
            }
            Cells::Wide(nodes) => nodes.extend(to),
        }
    }
}
