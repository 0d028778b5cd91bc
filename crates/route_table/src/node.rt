//! The nodes of the trie.

ghost use Rattle.std.specs.Prelude.{◌≡◌, ◌↔◌, ◌∷◌, ◌≤◌, [], length, OnOk, OnErr, IfOk, IsTrue};
ghost use Rattle.std.specs.Option.{option_copied};
ghost use Rattle.std.specs.Cmp.Lexicographic.{slice_cmp};
ghost use Rattle.std.specs.FinMap.{empty, get, insert, remove};
ghost use Rattle.std.specs.List as list;
ghost use Rattle.std.specs.List.Sorted.{IsBinarySearchResult, IsSearchInRange};
ghost use Rattle.std.specs.Ordering.{nat_cmp};
ghost use Rattle.ilp_addr.specs.Segments.{segments_left};
ghost use Rattle.route_table.specs.Paths.{Path, longest_at};
ghost use Rattle.route_table.specs.Nodes.{hop_in, Names, LeadsToGroup};

mod listing;
mod within;

use crate::hop::{Hop, PeerNo};
use common_types::order_of;
use ilp_addr::Segments;
use std::alloc::{AllocError, Global};
use std::marker::Model;
use std::sync::Arc;

/// A group of peers, by their numbers.
#[derive(Clone, Copy)]
pub(crate) enum PeerGroup {
    /// The peer of that number.
    Peer(PeerNo),
    /// Those whose number is not below the count.
    NotBelow(usize),
}

/// A node: the hop of the prefix that ends here, if that has a route, and a child for each segment
/// that follows. The children are in the order of their segments, so that no choice of segments
/// makes a search slow.
#[derive(Debug, Drop)]
#[cycle(node)]
pub(crate) struct Node {
    hop: Option<Hop>,
    children: Vec<Child>,
}

/// The node under a segment. Copies of the routes share it until one of them changes it.
#[derive(Debug, Drop)]
#[cycle(node)]
struct Child {
    segment: Vec<u8>,
    node: Arc<Node>,
}

impl Model for Node {
    ghost use Rattle.route_table.specs.Nodes.{Branch, branch_code, routes_from, IsNode};

    ghost Value = { Branch };

    ghost coded = { branch_code };

    ghost use Rattle.route_table.specs.Children.{children_of, height_of};

    ghost view = { λ n. record {
      routes = routes_from n.hop (children_of n.children.items);
      height = height_of n.children.items;
    } };

    ghost invariant = { λ n. IsNode (children_of n.children.items) };

    ghost size = { λ b. b.height };
}

impl Clone for Node {
    ghost is_clone = { λ n c. c ≡ n };

    fn clone(&self) -> Result<Node, AllocError> {
        self.copy(*self.children.allocator())
    }
}

impl Node {
    /// A node with no routes.
    pub(crate) fn new(alloc: Global) -> Node
        ensures { result.routes ≡ empty }
    {
        Node {
            hop: None,
            children: Vec::new(alloc),
        }
    }

    /// The hop of the longest beginning of the path that has one.
    pub(crate) fn find(&self, path: Segments<'_>) -> Option<Hop>
        ensures { result ≡ longest_at (get self.now.routes) (segments_left path.entry) }
    {
        let mut node = self;
        let mut best = None;
        for segment in path {
            best = node.hop().or(best);
            let Some(child) = node.child(segment) else {
                return best;
            };
            node = child;
        }
        node.hop().or(best)
    }

    /// The hop of the path.
    pub(crate) fn hop_at(&self, path: Segments<'_>) -> Option<Hop>
        ensures { result ≡ get self.now.routes (segments_left path.entry) }
    {
        let mut node = self;
        for segment in path {
            node = node.child(segment)?;
        }
        node.hop()
    }

    /// Sets the hop of the path. An error leaves the routes as they were.
    pub(crate) fn add(
        &mut self,
        alloc: Global,
        path: Segments<'_>,
        hop: Hop,
    ) -> Result<(), AllocError>
        ensures added { OnOk result
            (self.new.routes ≡ insert self.old.routes (segments_left path.entry) hop) }
        ensures unchanged { OnErr result (self.new.routes ≡ self.old.routes) }
    {
        let mut rest = path;
        let Some(segment) = rest.next() else {
            self.hop = Some(hop);
            return Ok(());
        };
        let at = match search(&self.children, segment) {
            Ok(at) => {
                let child = Arc::make_mut(&mut self.children[at].node)?;
                return child.add(alloc, rest, hop);
            }
            Err(at) => at,
        };
        let segment = Vec::from_slice(alloc, segment)?;
        let mut node = Node::new(alloc);
        node.add(alloc, rest, hop)?;
        let node = Arc::new(alloc, node)?;
        insert_child(&mut self.children, at, Child { segment, node })
    }

    /// Removes the hop of the path, and each child that has no routes left. An error leaves the
    /// routes as they were.
    pub(crate) fn remove(&mut self, path: Segments<'_>) -> Result<(), AllocError>
        ensures removed { OnOk result
            (self.new.routes ≡ remove self.old.routes (segments_left path.entry)) }
        ensures unchanged { OnErr result (self.new.routes ≡ self.old.routes) }
    {
        let mut rest = path;
        let Some(segment) = rest.next() else {
            self.hop = None;
            return Ok(());
        };
        let Ok(at) = search(&self.children, segment) else {
            return Ok(());
        };
        let child = Arc::make_mut(&mut self.children[at].node)?;
        child.remove(rest)?;
        if child.is_empty() {
            drop(self.children.remove(at));
        }
        Ok(())
    }

    /// Whether some route leads to a peer of the group.
    pub(crate) fn names(&self, group: PeerGroup) -> bool
        ensures { IsTrue result ↔ Names group self.now.routes }
    {
        if leads_to(self.hop, group) {
            return true;
        }
        for child in &self.children {
            if child.node.names(group) {
                return true;
            }
        }
        false
    }

    /// The same node, whose children are shared.
    pub(crate) fn copy(&self, alloc: Global) -> Result<Node, AllocError>
        ensures { IfOk result (λ node. node ≡ self.now) }
    {
        Ok(Node {
            hop: self.hop,
            children: Child::share_all(alloc, &self.children)?,
        })
    }

    fn hop(&self) -> Option<Hop>
        ensures { result ≡ get self.now.routes [] }
    {
        self.hop
    }

    fn child(&self, segment: &[u8]) -> Option<&Node>
        ensures { (path : Path)
            → hop_in path (option_copied result) ≡ get self.now.routes (segment.now ∷ path) }
    {
        match search(&self.children, segment) {
            Ok(at) => Some(&self.children[at].node),
            Err(_) => None,
        }
    }

    fn is_empty(&self) -> bool
        ensures { IsTrue result ↔ (self.now.routes ≡ empty) }
    {
        self.hop.is_none() && self.children.is_empty()
    }
}

impl Child {
    ghost use Rattle.route_table.specs.Children.{children_of};

    // The same child, which holds the node together with this one.
    fn share(&self, alloc: Global) -> Result<Child, AllocError>
        ensures segment { IfOk result (λ child. child.segment.items ≡ self.now.segment.items) }
        ensures node { IfOk result (λ child. child.node.value ≡ self.now.node.value) }
    {
        let segment = Vec::from_slice(alloc, &self.segment)?;
        let node = Arc::try_clone(&self.node)?;
        Ok(Child { segment, node })
    }

    fn share_all(alloc: Global, children: &[Child]) -> Result<Vec<Child>, AllocError>
        ensures { IfOk result (λ shared. children_of shared.items ≡ children_of children.now) }
    {
        let mut shared = Vec::with_capacity(alloc, children.len())?;
        for child in children {
            shared.push_reserved(child.share(alloc)?);
        }
        Ok(shared)
    }
}

// The index of the child under that segment, or the index at which to insert it.
fn search(children: &[Child], segment: &[u8]) -> Result<usize, usize>
    ensures range { IsSearchInRange result (length children.now) }
    ensures position { IsBinarySearchResult (λ c. slice_cmp nat_cmp c.segment.items segment.now)
        children.now result }
{
    children.binary_search_by(|child| order_of(child.segment.as_slice(), segment))
}

// Most nodes have one child, so the first takes no more room than it needs.
fn insert_child(children: &mut Vec<Child>, at: usize, child: Child) -> Result<(), AllocError>
    requires { at ≤ length children.old.items }
    ensures inserted { OnOk result (children.new.items ≡ list.insert children.old.items at child) }
    ensures unchanged { OnErr result (children.new.items ≡ children.old.items) }
{
    if children.is_empty() {
        children.reserve_exact(1)?;
    }
    children.insert(at, child)?;
    Ok(())
}

fn leads_to(hop: Option<Hop>, group: PeerGroup) -> bool
    ensures { IsTrue result ↔ LeadsToGroup group hop }
{
    match (hop, group) {
        (Some(hop), PeerGroup::Peer(peer)) => hop.peer == peer,
        (Some(hop), PeerGroup::NotBelow(count)) => hop.peer as usize >= count,
        (None, _) => false,
    }
}
