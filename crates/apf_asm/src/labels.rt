//! Labels, and what is wrong with items for them.

ghost use Rattle.std.specs.Prelude.{◌≡◌, ◌≢◌, ◌≤◌, ◌<◌, ℕ, length, None, Some, IfOk, OnOk, ◌⊎◌};
ghost use Rattle.apf_asm.specs.Refusals.{refusal};
ghost use Rattle.apf_asm.specs.Labels.{found, noted, label_found, label_refused, jump_refused, item_refused};
ghost use Rattle.apf_asm.specs.Items.{item_limit};

use crate::item::{AsmError, Item, Target};
use apf_base::OutOfMemory;
use std::alloc::Global;
use std::collections::BTreeMap;

/// A number for each label that has one. Labels below the number of items, as code generators draw them, stand in an array, others
/// in a tree, so that no choice of labels makes assembling slow.
#[derive(Drop)]
pub(crate) struct Labels {
    pub(crate) near: Vec<Option<u64>>,
    pub(crate) far: BTreeMap<u32, u64>,
}

impl Labels {
    /// No label has a number yet. Those below `near` will stand in the array.
    pub(crate) fn new(alloc: Global, near: usize) -> Result<Labels, OutOfMemory>
        ensures { IfOk result (λ labels. (l : ℕ) → found labels.near.items labels.far l ≡ None) }
    {
        Ok(Labels {
            near: vec![in alloc; None; near]?,
            far: BTreeMap::new(alloc),
        })
    }

    /// The number of a label, if it has one.
    pub(crate) fn get(&self, label: u32) -> Option<u64>
        ensures { result ≡ found self.now.near.items self.now.far label }
    {
        match self.near.get(label as usize) {
            Some(number) => *number,
            None => self.far.get(&label).copied(),
        }
    }

    /// Gives a label a number.
    fn insert(&mut self, label: u32, number: u64) -> Result<(), OutOfMemory>
        ensures label { OnOk result (found self.new.near.items self.new.far label ≡ Some number) }
        ensures others { OnOk result ((l : ℕ) → l ≢ label → found self.new.near.items self.new.far l ≡ found self.old.near.items self.old.far l) }
    {
        let place = label as usize;
        if place < self.near.len() {
            self.near[place] = Some(number);
        } else {
            self.far.insert(label, number)?;
        }
        Ok(())
    }

    /// Gives an item's label a number, where the item is one.
    pub(crate) fn note(&mut self, item: &Item, number: u64) -> Result<(), OutOfMemory>
        ensures { OnOk result ((l : ℕ) → found self.new.near.items self.new.far l ≡ noted item.now number (found self.old.near.items self.old.far) l) }
    {
        match item {
            Item::Label(label) => self.insert(*label, number),
            Item::Fixed(_) | Item::Jump(_) | Item::Byte(_) => Ok(()),
        }
    }
}

/// For each label the number of the first item that is it.
fn first_labels(alloc: Global, items: &[Item]) -> Result<Labels, OutOfMemory>
    ensures { IfOk result (λ first. (l : ℕ) → found first.near.items first.far l ≡ label_found l items.now) }
{
    let mut first = Labels::new(alloc, items.len())?;
    for (number, item) in items.iter().enumerate() {
        if let Item::Label(label) = item {
            if first.get(*label).is_none() {
                first.insert(*label, number as u64)?;
            }
        }
    }
    Ok(first)
}

/// What is wrong with a label: that it stands before, too.
fn label_refused(first: &Labels, number: usize, label: u32) -> Option<AsmError>
    requires { number < item_limit }
    ensures { result ≡ label_refused number label (found first.now.near.items first.now.far label) }
{
    match first.get(label) {
        Some(place) if place < number as u64 => Some(AsmError::Twice {
            item: number as u32,
            label,
        }),
        _ => None,
    }
}

/// What is wrong with a jump: that its label stands nowhere, or before it.
fn jump_refused(first: &Labels, number: usize, label: u32) -> Option<AsmError>
    requires { number < item_limit }
    ensures { result ≡ jump_refused number label (found first.now.near.items first.now.far label) }
{
    let item = number as u32;
    match first.get(label) {
        None => Some(AsmError::Unknown { item, label }),
        Some(place) if place < number as u64 => Some(AsmError::Backward { item, label }),
        Some(_) => None,
    }
}

/// What is wrong with an item.
fn item_refused(first: &Labels, number: usize, item: &Item) -> Option<AsmError>
    requires { number < item_limit }
    ensures { result ≡ item_refused (found first.now.near.items first.now.far) number item.now }
{
    match item {
        Item::Label(label) => label_refused(first, number, *label),
        Item::Jump(jump) => match jump.to {
            Target::Label(label) => jump_refused(first, number, label),
            Target::Pass | Target::Drop => None,
        },
        Item::Fixed(_) | Item::Byte(_) => None,
    }
}

/// What is wrong with the first item that is refused. One is.
pub(crate) fn first_refusal(alloc: Global, items: &[Item]) -> AsmError
    requires few { length items.now ≤ item_limit }
    requires refused { refusal items.now ≢ None }
    ensures { (result ≡ AsmError.OutOfMemory) ⊎ (refusal items.now ≡ Some result) }
{
    let Ok(first) = first_labels(alloc, items) else {
        return AsmError::OutOfMemory;
    };
    for (number, item) in items.iter().enumerate() {
        if let Some(error) = item_refused(&first, number, item) {
            return error;
        }
    }
    unreachable!()
}
