// Where the leaves of each id stand.
ghost use Rattle.std.specs.Prelude.{◌≡◌, ◌++◌, ◌∷◌, [], if◌then◌else◌, OnOk};
ghost use Rattle.std.specs.HashMap.{get};
ghost use Rattle.protocol_trees.specs.Future.{id_meant};
ghost use Rattle.journal_model.specs.declared.notification.NotificationId.{NotificationId};
ghost use Rattle.vm_flat_trees.specs.Places.{places_in};
ghost use Rattle.vm_awaits.specs.Ids.{no_places, leaves_in, with_leaf};

use bytes::ByteStr;
use journal_model::NotificationId;
use protocol_trees::NotificationIdRef;
use std::alloc::{AllocError, Global};
use std::collections::HashMap;
use std::hash::Hash;

/// Where the leaves of each id stand.
#[derive(Drop)]
pub(crate) struct IdLeaves {
    completions: HashMap<u32, Vec<usize>>,
    signals: HashMap<u32, Vec<usize>>,
    names: HashMap<ByteStr, Vec<usize>>,
}

fn put<K: Eq + Hash + Drop>(
    all: &mut HashMap<K, Vec<usize>>,
    key: K,
    places: Vec<usize>,
) -> Result<(), AllocError>
    ensures { OnOk result ((q : K) → places_in (get K.eq all.new q) ≡ (if K.eq key q then places.items else places_in (get K.eq all.old q))) }
{
    match all.insert(key, places) {
        Ok(_) => Ok(()),
        Err(refused) => {
            drop(refused);
            Err(AllocError)
        }
    }
}

fn taken<K: Eq + Hash + Drop>(
    alloc: Global,
    all: &mut HashMap<K, Vec<usize>>,
    key: &K,
) -> Vec<usize>
    ensures places { result.items ≡ places_in (get K.eq all.old key.now) }
    ensures others { (q : K) → places_in (get K.eq all.new q) ≡ (if K.eq key.now q then [] else places_in (get K.eq all.old q)) }
{
    match all.remove(key) {
        Some(places) => places,
        None => Vec::new(alloc),
    }
}

// One leaf more of a key.
fn add<K: Eq + Hash + Drop>(
    alloc: Global,
    all: &mut HashMap<K, Vec<usize>>,
    key: K,
    place: usize,
) -> Result<(), AllocError>
    ensures { OnOk result ((q : K) → places_in (get K.eq all.new q)
        ≡ (if K.eq key q then places_in (get K.eq all.old key) ++ place ∷ [] else places_in (get K.eq all.old q))) }
{
    let mut places = taken(alloc, all, &key);
    places.push(place)?;
    put(all, key, places)
}

impl IdLeaves {
    pub(crate) fn new(alloc: Global) -> IdLeaves
        ensures { leaves_in result ≡ no_places }
    {
        IdLeaves {
            completions: HashMap::new(alloc),
            signals: HashMap::new(alloc),
            names: HashMap::new(alloc),
        }
    }

    /// One leaf more of an id.
    pub(crate) fn add(
        &mut self,
        alloc: Global,
        id: NotificationIdRef<'_>,
        place: usize,
    ) -> Result<(), AllocError>
        ensures { OnOk result ((q : NotificationId) → leaves_in self.new q ≡ with_leaf (id_meant id.entry) place (leaves_in self.old) q) }
    {
        match id {
            NotificationIdRef::CompletionId(number) => add(
                alloc,
                &mut self.completions,
                number,
                place,
            ),
            NotificationIdRef::SignalId(number) => add(alloc, &mut self.signals, number, place),
            NotificationIdRef::SignalName(name) => add(
                alloc,
                &mut self.names,
                name.clone()?,
                place,
            ),
        }
    }

    /// Where the leaves of an id stand.
    pub(crate) fn at(&self, id: &NotificationId) -> &[usize]
        ensures { result.now ≡ leaves_in self.now id.now }
    {
        let places = match id {
            NotificationId::CompletionId(number) => self.completions.get(number),
            NotificationId::SignalId(number) => self.signals.get(number),
            NotificationId::SignalName(name) => self.names.get(name),
        };
        match places {
            Some(places) => places.as_slice(),
            None => &[],
        }
    }
}
