//! Laws of the nodes of ports. The functions do nothing; their clauses say what is proved.
ghost use Rattle.std.specs.Prelude.{◌≡◌, ◌<◌, ◌^◌, ℕ, suc, true, IsPermutation, List, length, map};
ghost use Rattle.std.specs.List.{AllByRecursion};
ghost use Rattle.policy_meaning.specs.Hops.{Fabric, hop_size, node, peers_size};
ghost use Rattle.policy_meaning.specs.declared.network.Place.{Place};
ghost use Rattle.policy_meaning.specs.declared.rule.Rule.{Rule};
ghost use Rattle.rule_ancestry.specs.Holding.{Held, item_of};
ghost use Rattle.made_rules.specs.Rules.{rules_in};
ghost use Rattle.made_rules.specs.declared.made.Made.{Made};
ghost use Rattle.virtual_topology.specs.declared.plan.TopologyPlan.{TopologyPlan};
ghost use Rattle.hop_rules.specs.Counts.{CameThere, CameTo, peers_came, row_steps, rules_came};
ghost use Rattle.hop_rules.specs.Links.{ends, exit_link, exits, links};
ghost use Rattle.hop_rules.specs.Handed.{GivenOf};
ghost use Rattle.hop_rules.specs.Nodes.{IsAt, IsMadeOf, IsOf, IsOwn, IsSetUp, NodeOf, Once};
ghost use Rattle.hop_rules.specs.declared.exits.Exit.{Exit};
ghost use Rattle.hop_rules.specs.declared.exits.LinkEnd.{LinkEnd};

/// The rules that a node is to make are those of its port from scratch for one hop more, where those of
/// the nodes to which its exits lead are; and they are normal, of the port and below its size.
pub fn nodes_are_from_scratch()
    ensures scratch { (f : Fabric) → (n : ℕ) → (at : Place) → (exits : List Exit) → (rules : List (Held Rule))
        → (below : List NodeOf) → (held : List (Held Made))
        → map exit_link exits ≡ f.links at.v → Once (map (λ (e : Exit). e.place) exits)
        → IsPermutation (map item_of rules) (f.rules at.v) → AllByRecursion (IsOf f n below) exits
        → IsMadeOf at (peers_size (hop_size f n) (f.links at.v)) exits rules below held
        → IsPermutation (map item_of (rules_in held)) (node f (suc n) at.v at.port) }
    ensures fit { (f : Fabric) → ((v : ℕ) → AllByRecursion (IsOwn (f.sizes v)) (f.rules v))
        → (n v port : ℕ) → AllByRecursion (IsAt (hop_size f n v) port) (node f n v port) }
{}

/// Nodes that have the rules of their ports from scratch set up those of one hop more, where the rules of
/// each virtual switch are normal and below its size, and what both make fits.
pub fn nodes_set_up_those_above()
    ensures { (f : Fabric) → ((v : ℕ) → AllByRecursion (IsOwn (f.sizes v)) (f.rules v))
        → (n : ℕ) → (below : List NodeOf) → (v : ℕ) → (given : GivenOf)
        → map exit_link given.exits ≡ f.links v → Once (map (λ (e : Exit). e.place) given.exits)
        → AllByRecursion (λ (e : Exit). e.place < length below) given.exits
        → AllByRecursion (λ (m : NodeOf). m.read ≡ true) below
        → IsPermutation (map item_of given.rules) (f.rules v) → AllByRecursion (IsOf f n below) given.exits
        → hop_size f (suc n) v < 2 ^ 64
        → IsSetUp (f.sizes v) (peers_size (hop_size f n) (f.links v)) given below }
{}

/// The exits of a virtual switch are its links in a topology, each at a place of its own.
pub fn exits_are_links()
    ensures links { (plan : TopologyPlan) → (v : ℕ) → map exit_link (exits (ends plan) v) ≡ links plan v }
    ensures places { (es : List LinkEnd) → (v : ℕ) → Once (map (λ (e : Exit). e.place) (exits es v)) }
{}

/// The steps at the nodes of some ports are by what came, in whatever order a change tells of it.
pub fn steps_are_of_what_came()
    ensures { (f g : Fabric) → (es : List LinkEnd) → (n : ℕ) → (come came : ℕ → List Rule) → (places : List Place)
        → CameTo f g come → CameThere f g es n came
        → row_steps g es come n came places ≡ row_steps g es (rules_came f g) n (peers_came f g es n) places }
{}
