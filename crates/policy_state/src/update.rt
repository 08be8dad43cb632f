//! Changes of the state.

ghost use Rattle.std.specs.Prelude.{◌≡◌, if◌then◌else◌};

use crate::{Address, FilterState, Keepalive};

/// A change of the state.
#[derive(Clone, Copy, Debug, PartialEq, Eq)]
pub enum Update {
    /// Multicast is filtered from now on, or no longer.
    Multicast(bool),
    /// The host dozes from now on, or no longer.
    Doze(bool),
    /// The host has this address, or none.
    Address(Option<Address>),
    /// A keepalive was sent, and goes into an empty slot.
    KeepaliveAdd { slot: u32, sent: Keepalive },
    /// The keepalive in a slot is over.
    KeepaliveRemove { slot: u32 },
}

/// Whether a change made a difference.
#[derive(Clone, Copy, Debug, PartialEq, Eq)]
pub enum Changed {
    Yes,
    No,
}

/// Why a change is refused.
#[derive(Clone, Copy, Debug, PartialEq, Eq)]
pub enum StateError {
    /// An address has a prefix above 32.
    Prefix(u32),
    /// A slot is above 7.
    SlotRange(u32),
    /// A keepalive is added to a slot that holds one.
    SlotInUse(u32),
    /// A keepalive is removed from a slot that holds none.
    SlotEmpty(u32),
}

/// Says whether a difference was made.
fn changed_unless(same: bool) -> Changed
    ensures { result ≡ (if same then Changed.No else Changed.Yes) }
{
    if same { Changed::No } else { Changed::Yes }
}

impl FilterState {
    ghost use Rattle.std.specs.Prelude.{◌≡◌, ◌↔◌};
    ghost use Rattle.policy_state.specs.Effects.{after, answer_to, state_after};

    /// Makes a change. A refusal changes nothing, and `No` says that the state was so already.
    pub fn apply(&mut self, u: &Update) -> Result<Changed, StateError>
        ensures answer { result ≡ answer_to self.old u.now }
        ensures no { (result ≡ Ok Changed.No) ↔ (after self.old u.now ≡ Ok self.old) }
        ensures state { self.new ≡ state_after self.old u.now }
    {
        self.change(u)
    }

    fn change(&mut self, u: &Update) -> Result<Changed, StateError>
        ensures answer { result ≡ answer_to self.old u.now }
        ensures state { self.new ≡ state_after self.old u.now }
    {
        match *u {
            Update::Multicast(on) => {
                let changed = changed_unless(self.multicast == on);
                self.multicast = on;
                Ok(changed)
            }
            Update::Doze(on) => {
                let changed = changed_unless(self.doze == on);
                self.doze = on;
                Ok(changed)
            }
            Update::Address(to) => self.set_address(to),
            Update::KeepaliveAdd { slot, sent } => self.add_keepalive(slot, sent),
            Update::KeepaliveRemove { slot } => self.remove_keepalive(slot),
        }
    }

    fn set_address(&mut self, to: Option<Address>) -> Result<Changed, StateError>
        ensures answer { result ≡ answer_to self.old (Update.Address to) }
        ensures state { self.new ≡ state_after self.old (Update.Address to) }
    {
        if let Some(address) = to
            && address.prefix > 32
        {
            return Err(StateError::Prefix(address.prefix));
        }
        let changed = changed_unless(self.address == to);
        self.address = to;
        Ok(changed)
    }

    fn add_keepalive(&mut self, slot: u32, sent: Keepalive) -> Result<Changed, StateError>
        ensures answer { result ≡ answer_to self.old (Update.KeepaliveAdd slot sent) }
        ensures state { self.new ≡ state_after self.old (Update.KeepaliveAdd slot sent) }
    {
        if slot > 7 {
            return Err(StateError::SlotRange(slot));
        }
        if self.keepalives[slot as usize].is_some() {
            return Err(StateError::SlotInUse(slot));
        }
        self.keepalives[slot as usize] = Some(sent);
        Ok(Changed::Yes)
    }

    fn remove_keepalive(&mut self, slot: u32) -> Result<Changed, StateError>
        ensures answer { result ≡ answer_to self.old (Update.KeepaliveRemove slot) }
        ensures state { self.new ≡ state_after self.old (Update.KeepaliveRemove slot) }
    {
        if slot > 7 {
            return Err(StateError::SlotRange(slot));
        }
        if self.keepalives[slot as usize].is_none() {
            return Err(StateError::SlotEmpty(slot));
        }
        self.keepalives[slot as usize] = None;
        Ok(Changed::Yes)
    }
}
