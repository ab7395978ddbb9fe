//! What a method gives.

use anyhow::{Result, bail};
use std::alloc::Global;
use vat::{Elements, Items, Payload, Pointers, RefId, Tree};

/// What a method gives, and what a call is made with: a struct whose fields are put in one after the other, as the schema has
/// them. The references are let go of once it was sent.
#[derive(Drop)]
pub struct Results {
    words: Vec<u64>,
    pointers: Pointers,
    refs: Vec<RefId>,
    caps: u32,
    alloc: Global,
}

impl Results {
    pub fn new(alloc: Global) -> Results {
        Results {
            words: Vec::new(alloc),
            pointers: Pointers::new(alloc),
            refs: Vec::new(alloc),
            caps: 0,
            alloc,
        }
    }

    pub fn with_number(mut self, number: u64) -> Result<Results> {
        self.words.push(number)?;
        Ok(self)
    }

    pub fn with_text(self, text: &str) -> Result<Results> {
        let text = Tree::text(self.alloc, text)?;
        self.with_pointer(text)
    }

    pub fn with_data(self, bytes: &[u8]) -> Result<Results> {
        let data = Tree::data(self.alloc, bytes)?;
        self.with_pointer(data)
    }

    pub fn with_numbers(self, numbers: &[u64]) -> Result<Results> {
        let numbers = Vec::from_slice(self.alloc, numbers)?;
        self.with_pointer(Tree::List(Elements::Eights(numbers)))
    }

    pub fn with_capability(mut self, reference: RefId) -> Result<Results> {
        let capability = Tree::Cap(self.caps);
        let Some(caps) = self.caps.checked_add(1) else {
            bail!("too many capabilities");
        };
        self.refs.push(reference)?;
        self.caps = caps;
        self.with_pointer(capability)
    }

    fn with_pointer(mut self, tree: Tree) -> Result<Results> {
        self.pointers.push(tree)?;
        Ok(self)
    }

    /// What is sent, and the references that go with it.
    pub fn into_payload(self) -> Result<(Payload, Items<RefId>)> {
        let Results {
            words,
            pointers,
            refs,
            caps,
            alloc,
        } = self;
        let payload = Payload::write(alloc, &Tree::Struct { words, pointers }, caps)?;
        Ok((payload, Items::from_vec(refs)))
    }
}
