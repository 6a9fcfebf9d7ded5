//! Links from names to ids.
ghost use Rattle.std.specs.Prelude.{◌≡◌, ◌||◌, ◌&&◌, not, true, false, IfOk, OnOk, OnErr, map, filter};
ghost use Rattle.std.specs.BTreeSet.{contains};
ghost use Rattle.std.specs.BTreeMap.Range.{range_contains};
ghost use Rattle.std.specs.Ordering.{is_eq};
ghost use Rattle.std.specs.declared.ops.Bound.TheVariants.{Included};
ghost use Rattle.rule_ancestry.specs.InsideLinks.{by_link, links_to};
ghost use Rattle.rule_ancestry.specs.Names.{names as bears_name};

use cv_io::Memory;
use std::alloc::Global;
use std::collections::BTreeSet;

/// A name, and the id of what bears it.
#[derive(Clone, Copy, PartialEq, Eq, PartialOrd, Ord, Debug)]
pub struct Link<N> {
    pub name: N,
    pub id: usize,
}

/// Whether some of the names is this one.
fn is_among<N: Ord>(names: &[N], name: &N) -> bool
    ensures { result ≡ bears_name N.cmp names.now name.now }
{
    names.iter().any(|other| other.cmp(name).is_eq())
}

/// Links names to an id; after want of memory, some of them.
fn attach_some<N: Ord + Copy>(
    links: &mut BTreeSet<Link<N>>,
    names: &[N],
    id: usize,
) -> Result<(), Memory>
    ensures linked { OnOk result ((q : Link N)
        → contains (by_link N.cmp) links.new q
        ≡ (links_to N.cmp names.now id q || contains (by_link N.cmp) links.old q)) }
    ensures others { OnErr result ((q : Link N) → links_to N.cmp names.now id q ≡ false
        → contains (by_link N.cmp) links.new q ≡ contains (by_link N.cmp) links.old q) }
    ensures kept { OnErr result ((q : Link N) → contains (by_link N.cmp) links.old q ≡ true
        → contains (by_link N.cmp) links.new q ≡ true) }
{
    for name in names {
        links.insert(Link { name: *name, id })?;
    }
    Ok(())
}

/// Takes the link of a name to an id away, unless it is one of those to keep.
fn detach_one<N: Ord + Copy>(links: &mut BTreeSet<Link<N>>, name: N, id: usize, keep: &[N])
    ensures { (q : Link N) → contains (by_link N.cmp) links.new q
        ≡ ((not (is_eq (by_link N.cmp (record { name = name; id = id }) q)) || links_to N.cmp keep.now id q) && contains
        (by_link N.cmp) links.old q) }
{
    if is_among(keep, &name) {
        return;
    }
    links.remove(&Link { name, id });
}

/// Takes the links of names to an id away, but those that are to be kept.
pub(crate) fn detach<N: Ord + Copy>(
    links: &mut BTreeSet<Link<N>>,
    names: &[N],
    id: usize,
    keep: &[N],
)
    ensures { (q : Link N) → contains (by_link N.cmp) links.new q
        ≡ ((not (links_to N.cmp names.now id q) || links_to N.cmp keep.now id q) && contains (by_link N.cmp) links.old
        q) }
{
    for name in names {
        detach_one(links, *name, id, keep);
    }
}

/// Links names to an id to which no others are linked than some that are known.
pub(crate) fn attach<N: Ord + Copy>(
    links: &mut BTreeSet<Link<N>>,
    names: &[N],
    id: usize,
    known: &[N],
) -> Result<(), Memory>
    requires known { (q : Link N) → q.id ≡ id → contains (by_link N.cmp) links.old q ≡ links_to N.cmp known.now id q }
    ensures linked { OnOk result ((q : Link N)
        → contains (by_link N.cmp) links.new q
        ≡ (links_to N.cmp names.now id q || contains (by_link N.cmp) links.old q)) }
    ensures memory { OnErr result ((q : Link N)
        → contains (by_link N.cmp) links.new q ≡ contains (by_link N.cmp) links.old q) }
{
    match attach_some(links, names, id) {
        Ok(()) => Ok(()),
        Err(wanted) => {
            detach(links, names, id, known);
            Err(wanted)
        }
    }
}

/// The ids to which a name is linked, rising.
pub(crate) fn linked<N: Ord + Copy>(
    alloc: Global,
    links: &BTreeSet<Link<N>>,
    name: N,
) -> Result<Vec<usize>, Memory>
    ensures { IfOk result (λ ids. ids.items ≡ map (λ (q : Link N). q.id)
        (filter (range_contains (by_link N.cmp) (Included (record { name = name; id = 0 }))
        (Included (record { name = name; id = 18446744073709551615 }))) links.now.keys)) }
{
    let first = Link { name, id: 0 };
    let last = Link {
        name,
        id: usize::MAX,
    };
    let mut ids = Vec::new(alloc);
    for link in links.range(first..=last) {
        ids.push(link.id)?;
    }
    Ok(ids)
}
