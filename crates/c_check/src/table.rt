//! The variables in scope, and those of the innermost block (ISO C11, 6.2.1).
//!
//! A map has for each name in scope its newest variable. Each variable keeps the one that it hides,
//! which the map gets back where its block ends.
ghost use Rattle.std.specs.Prelude.{◌≡◌, ℕ, List, IsSome, IfErr, OnOk, bytes_eq};
ghost use Rattle.std.specs.HashMap.{get_by_text};
ghost use Rattle.std.specs.Map.{update};
ghost use Rattle.c_check.specs.declared.fault.CheckFault.TheVariants as fault;
ghost use Rattle.c_check.specs.Resolves.{number_of};

use crate::CheckFault;
use c_ast::Name;
use sqlite_items::Items;
use std::alloc::Global;
use std::collections::HashMap;
use std::marker::Model;
use std::mem;

/// The variable that a name stands for.
#[derive(Clone, Copy)]
struct Slot {
    number: u32,
    /// How many blocks there are around its own.
    depth: usize,
}

/// A variable in scope.
#[derive(Drop)]
struct Entry {
    name: String,
    number: u32,
    /// What its name stood for before.
    hidden: Option<Slot>,
}

/// The variables in scope.
#[derive(Drop)]
pub(crate) struct Table {
    newest: HashMap<String, Slot>,
    /// What the innermost block declares, the newest last.
    block: Items<Entry>,
    /// What the blocks around it declare, the innermost of them last.
    outer: Items<Items<Entry>>,
}

impl Model for Table {
    ghost use Rattle.std.specs.Prelude.{◌∷◌, reverse};
    ghost use Rattle.c_check.specs.Table.{Table};
    ghost use Rattle.c_check.specs.Entries.{table_of, turned, IsTable};

    ghost Value = { Table };

    ghost view = { λ t. table_of (reverse t.block ∷ turned t.outer) };

    ghost invariant = { λ t. IsTable t.newest (reverse t.block ∷ turned t.outer) };
}

/// What the name stands for is again what its newest variable hides.
fn give_back(newest: &mut HashMap<String, Slot>, name: &str, hidden: Option<Slot>)
    requires { IsSome (get_by_text newest.old name.now) }
    ensures { (other : List ℕ) → get_by_text newest.new other
        ≡ update bytes_eq (get_by_text newest.old) name.now hidden other }
{
    match hidden {
        Some(hidden) => {
            if let Some(slot) = newest.get_mut(name) {
                *slot = hidden;
            }
        }
        None => {
            newest.remove(name);
        }
    }
}

impl Table {
    ghost use Rattle.c_check.specs.Table.{scope_of, block_names, nothing_in_scope, with_binding, entered_table, left_table};
    ghost use Rattle.c_check.specs.Faults.{holds_name};

    /// Nothing is in scope.
    pub(crate) fn new(alloc: Global) -> Table
        ensures { result ≡ nothing_in_scope }
    {
        Table {
            newest: HashMap::new(alloc),
            block: Items::new(alloc),
            outer: Items::new(alloc),
        }
    }

    /// A block begins.
    pub(crate) fn enter(&mut self, alloc: Global) -> Result<(), CheckFault>
        ensures entered { OnOk result (self.new ≡ entered_table self.old) }
        ensures memory { IfErr result (λ first. first ≡ fault.Memory) }
    {
        let at = self.outer.len();
        self.outer.push(Items::new(alloc))?;
        let block = mem::replace(&mut self.block, Items::new(alloc));
        self.outer.set(at, block);
        Ok(())
    }

    /// A block ends.
    pub(crate) fn leave(&mut self, alloc: Global)
        ensures { self.new ≡ left_table self.old }
    {
        while let Some(entry) = self.block.pop() {
            give_back(&mut self.newest, entry.name.as_str(), entry.hidden);
        }
        self.block = match self.outer.pop() {
            Some(block) => block,
            None => Items::new(alloc),
        };
    }

    /// The innermost block declares a variable.
    pub(crate) fn declare(
        &mut self,
        alloc: Global,
        name: &Name,
        number: u32,
    ) -> Result<(), CheckFault>
        ensures declared { OnOk result
            (self.new ≡ with_binding (record { name = name.now; number = number }) self.old) }
        ensures memory { IfErr result (λ first. first ≡ fault.Memory) }
    {
        let slot = Slot {
            number,
            depth: self.outer.len(),
        };
        let text = name.text();
        let key = String::from_str(alloc, text)?;
        let name = String::from_str(alloc, text)?;
        let hidden = self.newest.insert(key, slot)?;
        let entry = Entry {
            name,
            number,
            hidden,
        };
        let pushed: Result<_, _> = self.block.push(entry);
        match pushed {
            Ok(()) => Ok(()),
            Err(_) => {
                give_back(&mut self.newest, text, hidden);
                Err(CheckFault::Memory)
            }
        }
    }

    /// The number of the variable that a name stands for.
    pub(crate) fn number_of(&self, name: &Name) -> Option<u32>
        ensures { result ≡ number_of (scope_of self.now) name.now }
    {
        match self.newest.get(name.text()) {
            Some(slot) => Some(slot.number),
            None => None,
        }
    }

    /// Whether the innermost block declares a variable of this name.
    pub(crate) fn declares(&self, name: &Name) -> bool
        ensures { result ≡ holds_name (block_names self.now) name.now }
    {
        let depth = self.outer.len();
        match self.newest.get(name.text()) {
            Some(slot) => slot.depth == depth,
            None => false,
        }
    }
}
