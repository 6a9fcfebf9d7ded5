//! Rows that are found by a key.
ghost use Rattle.std.specs.Prelude.{◌≡◌, IfOk, OnOk};
ghost use Rattle.std.specs.HashMap.{get};
ghost use Rattle.std.specs.Map.{lookup};

use cv_io::{Duplicate, Memory};
use std::alloc::Global;
use std::collections::HashMap;
use std::hash::Hash;
use std::marker::Model;

/// Rows in their order, of which the first is found where several have one key.
#[derive(Drop)]
pub struct Rows<K: Eq + Hash, V> {
    rows: Vec<(K, V)>,
    map: HashMap<K, V>,
}

impl<K: Eq + Hash, V> Model for Rows<K, V> {
    ghost use Rattle.std.specs.Prelude.{◌≡◌, List};
    ghost use Rattle.std.specs.HashMap.{get};
    ghost use Rattle.std.specs.Map.{lookup};

    ghost Value = { List (K × V) };

    ghost view = { λ a. a.rows.items };

    ghost invariant = { λ a. (key : K) → get K.eq a.map key ≡ lookup (K.eq key) a.rows.items };
}

/// The map of rows, of which the first counts where several have one key.
fn map_of<K: Eq + Hash + Copy, V: Copy>(
    alloc: Global,
    rows: &[(K, V)],
) -> Result<HashMap<K, V>, Memory>
    ensures { IfOk result (λ m. (key : K) → get K.eq m key ≡ lookup (K.eq key) rows.now) }
{
    let mut map = HashMap::with_capacity(alloc, rows.len())?;
    let mut left = rows.len();
    while left > 0 {
        left -= 1;
        let (key, value) = rows[left];
        map.insert(key, value)?;
    }
    Ok(map)
}

impl<K: Eq + Hash + Copy, V: Copy> Rows<K, V> {
    pub fn of(alloc: Global, rows: Vec<(K, V)>) -> Result<Rows<K, V>, Memory>
        ensures { IfOk result (λ r. r ≡ rows.items) }
    {
        let map = map_of(alloc, &rows)?;
        Ok(Rows { rows, map })
    }

    /// The value of a key.
    pub fn get(&self, key: K) -> Option<V>
        ensures { result ≡ lookup (K.eq key) self.now }
    {
        self.map.get(&key).copied()
    }

    pub fn rows(&self) -> &[(K, V)]
        ensures { result.now ≡ self.now }
    {
        &self.rows
    }
}

impl<K: Eq + Hash + Copy, V: Copy> Duplicate for Rows<K, V> {
    fn copy(&self) -> Result<Rows<K, V>, Memory> {
        let alloc = *self.rows.allocator();
        Rows::of(alloc, Vec::from_slice(alloc, &self.rows)?)
    }
}
