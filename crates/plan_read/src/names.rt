// The names of a text's variables, each found by its bytes.
ghost use Rattle.std.specs.Prelude.{◌≡◌, ◌++◌, ◌∷◌, [], OnOk, IfOk, IsUtf8, cond, is_some, length, position};
ghost use Rattle.std.specs.List.{AllByRecursion};
ghost use Rattle.std.specs.Str.{bytes_eq};

use indexmap::IndexMap;
use mix_tree::Label;
use std::alloc::{AllocError, Global};
use std::marker::Model;

/// Names in order, seen as their bytes. A name's number is its place.
#[derive(Drop)]
pub struct Names {
    places: IndexMap<Vec<u8>, ()>,
}

impl Model for Names {
    ghost use Rattle.std.specs.Prelude.{List, ℕ, map};

    ghost Value = { List (List ℕ) };

    ghost view = { λ n. map (λ e. e.0.items) n.places.entries };
}

impl Names {
    /// No names.
    pub fn new(alloc: Global) -> Names
        ensures { result ≡ [] }
    {
        Names {
            places: IndexMap::new(alloc),
        }
    }

    /// The number of a name; `None` where it isn't among these.
    pub fn number(&self, name: &[u8]) -> Option<usize>
        ensures { result ≡ position (bytes_eq name.now) self.now }
    {
        self.places.get_index_of(name)
    }

    /// How many there are.
    pub fn len(&self) -> usize
        ensures { result ≡ length self.now }
    {
        self.places.len()
    }

    /// Puts a name after the others, where it isn't among them.
    pub fn add(&mut self, alloc: Global, name: &[u8]) -> Result<(), AllocError>
        ensures { OnOk result (self.new ≡ cond (is_some (position (bytes_eq name.now) self.old)) self.old (self.old ++ name.now ∷ [])) }
    {
        if self.number(name).is_some() {
            return Ok(());
        }
        let name = Vec::from_slice(alloc, name)?;
        self.places.insert(name, ())?;
        Ok(())
    }

    /// The names as labels.
    pub fn labels(&self, alloc: Global) -> Result<Vec<Label>, AllocError>
        requires { AllByRecursion IsUtf8 self.now }
        ensures { IfOk result (λ labels. labels.items ≡ self.now) }
    {
        let mut labels = Vec::new(alloc);
        for name in self.places.keys() {
            labels.push(Label::of_text(alloc, name)?)?;
        }
        Ok(labels)
    }
}
