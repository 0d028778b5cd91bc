//! Purses: what a peer owes, and what is held on both sides.

use std::marker::Model;
use thiserror::Error;

/// The most of a ceiling, of a credit, and of a balance on either side of 0.
pub const MAX_MONEY: u64 = 1 << 62;

/// Why an amount is not held or settled. Nothing has changed then.
#[derive(Clone, Copy, Debug, PartialEq, Eq, Error)]
pub enum PurseFault {
    /// The peer would owe more than its ceiling.
    #[error("the peer would owe more than its ceiling")]
    Ceiling,
    /// More would be owed to the peer than its credit.
    #[error("more would be owed to the peer than its credit")]
    Credit,
    /// The balance, with what is held, would pass 2^62.
    #[error("the balance would pass 4611686018427387904")]
    Limit,
}

/// What a peer owes, what is held from it and for it, and how much it may owe and be owed, in its units. Contracts see an
/// `Account`. With what is held the balance never passes 2^62 on either side.
#[derive(Drop)]
pub struct Purse {
    // The balance and 2^62.
    level: u64,
    held_in: u64,
    held_out: u64,
    ceiling: u64,
    credit: u64,
}

impl Model for Purse {
    ghost use Rattle.money_core.specs.Account.{Account};

    ghost Value = { Account };

    ghost use Rattle.money_core.specs.PurseKept.{account_of, PurseInvariant};

    ghost view = { account_of };

    ghost invariant = { PurseInvariant };
}

impl Purse {
    ghost use Rattle.std.specs.Prelude.{◌≡◌, ◌≤◌, ◌-◌, ◌+◌, unsigned_abs, pos, neg_ℤ, ◌+ℤ◌, ◌-ℤ◌, ◌≤ℤ◌, true, false, if◌then◌else◌, Ok, Err, OnOk, OnErr};
    ghost use Rattle.money_core.specs.Account.{IsAccount, max_money, is_past_ceiling, is_past_credit, is_past_most, is_past_least};
    ghost use Rattle.money_core.specs.declared.purse.PurseFault.TheVariants as fault;

    /// A purse with this balance, from -2^62 to 2^62, with nothing held, and these limits, of at most 2^62.
    pub fn new(balance: i64, ceiling: u64, credit: u64) -> Purse
        requires least { neg_ℤ (pos max_money) ≤ℤ balance }
        requires most { balance ≤ℤ pos max_money }
        requires ceiling { ceiling ≤ max_money }
        requires credit { credit ≤ max_money }
        ensures { result ≡ record { balance = balance; held_in = 0; held_out = 0; ceiling = ceiling; credit = credit } }
    {
        Purse {
            level: (i128::from(balance) + i128::from(MAX_MONEY)) as u64,
            held_in: 0,
            held_out: 0,
            ceiling,
            credit,
        }
    }

    /// What the peer owes, below 0 if it is owed.
    pub fn balance(&self) -> i64
        ensures value { result ≡ self.now.balance }
        ensures within { unsigned_abs result ≤ max_money }
    {
        (i128::from(self.level) - i128::from(MAX_MONEY)) as i64
    }

    /// What is held from the peer.
    pub fn held_in(&self) -> u64
        ensures { result ≡ self.now.held_in }
    {
        self.held_in
    }

    /// What is held for the peer.
    pub fn held_out(&self) -> u64
        ensures { result ≡ self.now.held_out }
    {
        self.held_out
    }

    /// A copy of the purse.
    pub fn copy(&self) -> Purse
        ensures { result ≡ self.now }
    {
        Purse {
            level: self.level,
            held_in: self.held_in,
            held_out: self.held_out,
            ceiling: self.ceiling,
            credit: self.credit,
        }
    }

    /// What holds of each purse. Each of these is at most 2^62: what the peer owes with what is held from it, what it
    /// is owed with what is held for it, and each limit.
    pub fn is_account(&self)
        ensures { IsAccount self.now }
    {
        let _ = (
            self.level,
            self.held_in,
            self.held_out,
            self.ceiling,
            self.credit,
        );
    }

    /// Whether the peer would owe more than its ceiling, with so much more held from it.
    pub fn passes_ceiling(&self, amount: u64) -> bool
        ensures { result ≡ is_past_ceiling self.now amount }
    {
        let most = MAX_MONEY + self.ceiling;
        let owed = self.level + self.held_in;
        owed > most || amount > most - owed
    }

    /// Whether more would be owed to the peer than its credit, with so much more held for it.
    pub fn passes_credit(&self, amount: u64) -> bool
        ensures { result ≡ is_past_credit self.now amount }
    {
        let least = MAX_MONEY - self.credit;
        let left = self.level - self.held_out;
        left < least || amount > left - least
    }

    /// Whether the balance, with what is held from the peer and so much more, would pass 2^62.
    pub fn passes_most(&self, amount: u64) -> bool
        ensures { result ≡ is_past_most self.now amount }
    {
        amount > 2 * MAX_MONEY - (self.level + self.held_in)
    }

    /// Whether the balance, less what is held for the peer and so much more, would pass -2^62.
    pub fn passes_least(&self, amount: u64) -> bool
        ensures { result ≡ is_past_least self.now amount }
    {
        amount > self.level - self.held_out
    }

    /// Holds an amount from the peer. `Ceiling` if it would owe more than its ceiling.
    pub fn hold_in(&mut self, amount: u64) -> Result<(), PurseFault>
        ensures exact { result ≡ (if is_past_ceiling self.old amount then Err fault.Ceiling else Ok tt) }
        ensures ok { OnOk result (self.new ≡ record self.old { held_in = self.old.held_in + amount }) }
        ensures err { OnErr result (self.new ≡ self.old) }
    {
        if self.passes_ceiling(amount) {
            return Err(PurseFault::Ceiling);
        }
        self.held_in += amount;
        Ok(())
    }

    /// Holds an amount for the peer. `Credit` if more would be owed to it than its credit.
    pub fn hold_out(&mut self, amount: u64) -> Result<(), PurseFault>
        ensures exact { result ≡ (if is_past_credit self.old amount then Err fault.Credit else Ok tt) }
        ensures ok { OnOk result (self.new ≡ record self.old { held_out = self.old.held_out + amount }) }
        ensures err { OnErr result (self.new ≡ self.old) }
    {
        if self.passes_credit(amount) {
            return Err(PurseFault::Credit);
        }
        self.held_out += amount;
        Ok(())
    }

    /// Releases an amount that is held from the peer.
    pub fn release_in(&mut self, amount: u64)
        requires { amount ≤ self.old.held_in }
        ensures { self.new ≡ record self.old { held_in = self.old.held_in - amount } }
    {
        self.held_in -= amount;
    }

    /// Releases an amount that is held for the peer.
    pub fn release_out(&mut self, amount: u64)
        requires { amount ≤ self.old.held_out }
        ensures { self.new ≡ record self.old { held_out = self.old.held_out - amount } }
    {
        self.held_out -= amount;
    }

    /// Takes an amount that is held from the peer: it owes that much more.
    pub fn take_in(&mut self, amount: u64)
        requires { amount ≤ self.old.held_in }
        ensures { self.new ≡ record self.old {
          held_in = self.old.held_in - amount;
          balance = self.old.balance +ℤ pos amount;
        } }
    {
        self.held_in -= amount;
        self.level += amount;
    }

    /// Takes an amount that is held for the peer: it owes that much less.
    pub fn take_out(&mut self, amount: u64)
        requires { amount ≤ self.old.held_out }
        ensures { self.new ≡ record self.old {
          held_out = self.old.held_out - amount;
          balance = self.old.balance -ℤ pos amount;
        } }
    {
        self.held_out -= amount;
        self.level -= amount;
    }

    /// The peer has paid an amount: it owes that much less. `Limit` if the balance, less what is held for the peer,
    /// would be below -2^62.
    pub fn settle_in(&mut self, amount: u64) -> Result<(), PurseFault>
        ensures exact { result ≡ (if is_past_least self.old amount then Err fault.Limit else Ok tt) }
        ensures ok { OnOk result (self.new ≡ record self.old { balance = self.old.balance -ℤ pos amount }) }
        ensures err { OnErr result (self.new ≡ self.old) }
    {
        if self.passes_least(amount) {
            return Err(PurseFault::Limit);
        }
        self.level -= amount;
        Ok(())
    }

    /// The peer was paid an amount: it owes that much more. `Limit` if the balance, with what is held from the peer,
    /// would be above 2^62.
    pub fn settle_out(&mut self, amount: u64) -> Result<(), PurseFault>
        ensures exact { result ≡ (if is_past_most self.old amount then Err fault.Limit else Ok tt) }
        ensures ok { OnOk result (self.new ≡ record self.old { balance = self.old.balance +ℤ pos amount }) }
        ensures err { OnErr result (self.new ≡ self.old) }
    {
        if self.passes_most(amount) {
            return Err(PurseFault::Limit);
        }
        self.level += amount;
        Ok(())
    }

    /// Changes how much the peer may owe and be owed, at most 2^62 each. What is owed and held stays.
    pub fn set_limits(&mut self, ceiling: u64, credit: u64)
        requires ceiling { ceiling ≤ max_money }
        requires credit { credit ≤ max_money }
        ensures { self.new ≡ record self.old { ceiling = ceiling; credit = credit } }
    {
        self.ceiling = ceiling;
        self.credit = credit;
    }
}
