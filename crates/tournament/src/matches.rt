// The games of the tournament: all of them, or those above one leaf. Called by the merge alone.
ghost use Rattle.std.specs.Prelude.{◌≡◌, ℕ, ◌+◌, ◌*◌, ◌/◌, ◌<◌, ◌≤◌, ◌≢◌, length, set, MatchOption};
ghost use Rattle.tournament.specs.Ranks.{Better, Won, Played, node};

use crate::nodes::Node;

// The better of two.
pub fn better(a: Node, b: Node) -> Node
    ensures { Better a b result }
{
    // not min: of two of the same start and place the first stays, whatever their days
    if (b.start, b.place) < (a.start, a.place) {
        b
    } else {
        a
    }
}

// Lent nodes, and how many places there are: inner nodes from 1 on, and behind them a leaf for each place.
#[derive(Drop)]
pub struct Tournament<'a> {
    nodes: &'a mut [Node],
    count: usize,
    ghost room: { 2 * count ≤ length nodes.now },
}

impl<'a> Tournament<'a> {
    // A tournament of so many places, where there are two nodes for each; nothing is played.
    pub fn new(nodes: &'a mut [Node], count: usize) -> Option<Tournament<'a>>
        ensures { MatchOption result (length nodes.old < 2 * count) (λ t. (t.count ≡ count) × ((t.nodes.now ≡ nodes.old) × (t.nodes.ghost_name ≡ nodes.entry.ghost_name))) }
    {
        if nodes.len() / 2 < count {
            return None;
        }
        Some(Tournament { nodes, count })
    }
}

impl Tournament<'_> {
    // The best node of all: the root, where all is played.
    pub fn best(&self) -> Node
        requires { 1 ≤ self.now.count }
        ensures { result ≡ node self.now.nodes.now 1 }
    {
        self.nodes[1]
    }

    // Writes the leaf of a place; the games above it are as they were.
    pub fn seat(&mut self, place: usize, node: Node)
        requires { place < self.old.count }
        ensures same { self.new.nodes.ghost_name ≡ self.old.nodes.ghost_name }
        ensures count { self.new.count ≡ self.old.count }
        ensures nodes { self.new.nodes.now ≡ set self.old.nodes.now (self.old.count + place) node }
    {
        self.nodes[self.count + place] = node;
    }

    // Plays every node above the leaves.
    pub fn play(&mut self)
        ensures same { self.new.nodes.ghost_name ≡ self.old.nodes.ghost_name }
        ensures count { self.new.count ≡ self.old.count }
        ensures leaves { (j : ℕ) → self.old.count ≤ j → node self.new.nodes.now j ≡ node self.old.nodes.now j }
        ensures played { Played self.old.count self.new.nodes.now }
        ensures long { length self.new.nodes.now ≡ length self.old.nodes.now }
    {
        // from the leaves up: each game is between the winners below it
        for k in (1..self.count).rev() {
            self.nodes[k] = better(self.nodes[2 * k], self.nodes[2 * k + 1]);
        }
    }

    // Plays again the nodes above the leaf of a place that has changed.
    pub fn replay(&mut self, place: usize)
        requires { (place < self.old.count) × ((k : ℕ) → 1 ≤ k → k < self.old.count → k ≢ (self.old.count + place) / 2 → Won self.old.nodes.now k) }
        ensures same { self.new.nodes.ghost_name ≡ self.old.nodes.ghost_name }
        ensures count { self.new.count ≡ self.old.count }
        ensures leaves { (j : ℕ) → self.old.count ≤ j → node self.new.nodes.now j ≡ node self.old.nodes.now j }
        ensures played { Played self.old.count self.new.nodes.now }
        ensures long { length self.new.nodes.now ≡ length self.old.nodes.now }
    {
        // a while: each node's place is half of its child's, and no range halves
        let mut k = (self.count + place) / 2;
        while k > 0 {
            self.nodes[k] = better(self.nodes[2 * k], self.nodes[2 * k + 1]);
            k /= 2;
        }
    }
}
