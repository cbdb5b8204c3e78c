// What the names of each client hold.
ghost use Rattle.std.specs.Prelude.{◌≡◌, Some, None, OnOk, OnErr, option_copied};
ghost use Rattle.mix_script.specs.Names.{held, no_names, own_of, with_name, HasNamed};

use mix_tree::Label;
use std::alloc::{AllocError, Global};
use std::collections::BTreeMap;

/// What the names of each client hold: a place of a tree, or whatever else stands for a node.
#[derive(Drop)]
pub struct Names<V> {
    // The names of the client without a name, and those of the others.
    plain: BTreeMap<Label, V>,
    clients: BTreeMap<Label, BTreeMap<Label, V>>,
}

// Lets a name of one client hold a value.
fn put_own<V: Drop>(
    alloc: Global,
    own: &mut BTreeMap<Label, V>,
    name: &Label,
    value: V,
) -> Result<(), AllocError>
    ensures ok { OnOk result (HasNamed own.old own.new name.now (Some value)) }
    ensures err { OnErr result (own.new.entries ≡ own.old.entries) }
{
    if let Some(held) = own.get_mut(name) {
        *held = value;
        return Ok(());
    }
    own.insert(name.copy(alloc)?, value)?;
    Ok(())
}

// Lets a name of one client hold nothing.
fn clear_own<V: Drop>(own: &mut BTreeMap<Label, V>, name: &Label)
    ensures { HasNamed own.old own.new name.now None }
{
    own.remove(name);
}

impl<V: Drop> Names<V> {
    /// Names that hold nothing.
    pub fn new(alloc: Global) -> Names<V>
        ensures { held result ≡ no_names }
    {
        Names {
            plain: BTreeMap::new(alloc),
            clients: BTreeMap::new(alloc),
        }
    }

    // The names of a client.
    fn own(&self, client: &Label) -> Option<&BTreeMap<Label, V>>
        ensures { option_copied result ≡ own_of self.now client.now }
    {
        if client.bytes().is_empty() {
            return Some(&self.plain);
        }
        self.clients.get(client)
    }

    /// What a name of a client holds; `None` where it holds nothing.
    pub fn get(&self, client: &Label, name: &Label) -> Option<&V>
        ensures { option_copied result ≡ held self.now client.now name.now }
    {
        self.own(client)?.get(name)
    }

    // Lets a name hold nothing.
    fn clear(&mut self, client: &Label, name: &Label)
        ensures { held self.new ≡ with_name (held self.old) client.now name.now None }
    {
        if client.bytes().is_empty() {
            clear_own(&mut self.plain, name);
            return;
        }
        if let Some(own) = self.clients.get_mut(client) {
            clear_own(own, name);
        }
    }

    // Lets a name hold a value.
    fn put(
        &mut self,
        alloc: Global,
        client: &Label,
        name: &Label,
        value: V,
    ) -> Result<(), AllocError>
        ensures ok { OnOk result (held self.new ≡ with_name (held self.old) client.now name.now (Some value)) }
        ensures err { OnErr result (held self.new ≡ held self.old) }
    {
        if client.bytes().is_empty() {
            return put_own(alloc, &mut self.plain, name, value);
        }
        if let Some(own) = self.clients.get_mut(client) {
            return put_own(alloc, own, name, value);
        }
        let client = client.copy(alloc)?;
        let mut own = BTreeMap::new(alloc);
        put_own(alloc, &mut own, name, value)?;
        self.clients.insert(client, own)?;
        Ok(())
    }

    /// Lets a name of a client hold a value, or nothing. All other names hold what they held, and an error leaves them all.
    pub fn set(
        &mut self,
        alloc: Global,
        client: &Label,
        name: &Label,
        value: Option<V>,
    ) -> Result<(), AllocError>
        ensures ok { OnOk result (held self.new ≡ with_name (held self.old) client.now name.now value) }
        ensures err { OnErr result (held self.new ≡ held self.old) }
    {
        match value {
            Some(value) => self.put(alloc, client, name, value),
            None => {
                self.clear(client, name);
                Ok(())
            }
        }
    }
}
