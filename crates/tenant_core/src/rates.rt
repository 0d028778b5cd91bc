//! Rates between peers. Copies share them.

ghost use Rattle.std.specs.Prelude.{◌≡◌, ◌<◌, length, false, find, option_map, OnOk, OnErr, IfOk};
ghost use Rattle.std.specs.List.{list_any};
ghost use Rattle.tenant_core.specs.Limits.{max_rates};
ghost use Rattle.tenant_core.specs.Network.{has_pair, is_for_pair, names_peer};
ghost use Rattle.tenant_core.specs.Places.{ArePairsApart};
ghost use Rattle.tenant_core.specs.Rates.{rates_with, rates_without};

use crate::places::{order_by_pair, search_pair};
use crate::terms::RateTerms;
use money_core::Rate;
use route_table::PeerNo;
use std::alloc::{AllocError, Global};
use std::marker::Model;
use std::sync::Arc;

/// At most 4,096 rates, one for an ordered pair of peers. A pair is looked up without a walk over the list.
#[derive(Drop)]
struct RateList {
    rates: Vec<RateTerms>,
    // The places of the rates, in the order of their pairs.
    by_pair: Vec<u16>,
}

impl Model for RateList {
    ghost use Rattle.std.specs.Prelude.{List};
    ghost use Rattle.tenant_core.specs.declared.terms.RateTerms.{RateTerms};
    ghost use Rattle.tenant_core.specs.Rates.{IsRateList};

    ghost Value = { List RateTerms };

    ghost view = { λ l. l.rates.items };

    ghost invariant = { IsRateList };
}

impl Clone for RateList {
    ghost is_clone = { λ l c. c ≡ l };

    fn clone(&self) -> Result<RateList, AllocError> {
        let alloc = *self.rates.allocator();
        let rates = Vec::from_slice(alloc, self.rates.as_slice())?;
        let by_pair = Vec::from_slice(alloc, self.by_pair.as_slice())?;
        Ok(RateList { rates, by_pair })
    }
}

fn drop_rates(rates: &mut Vec<RateTerms>, number: PeerNo)
    ensures { rates.new.items ≡ rates_without number rates.old.items }
{
    rates.retain(|rate| !(rate.from == number || rate.to == number));
}

impl RateList {
    ghost use Rattle.std.specs.Prelude.{[]};

    fn new(alloc: Global) -> RateList
        ensures { result ≡ [] }
    {
        RateList {
            rates: Vec::new(alloc),
            by_pair: Vec::new(alloc),
        }
    }

    fn as_slice(&self) -> &[RateTerms]
        ensures value { result.now ≡ self.now }
        ensures apart { ArePairsApart self.now }
    {
        self.rates.as_slice()
    }

    fn between(&self, from: PeerNo, to: PeerNo) -> Option<Rate>
        ensures { result ≡ option_map (λ r. r.rate) (find (is_for_pair from to) self.now) }
    {
        match search_pair(&self.rates, &self.by_pair, (from, to)) {
            Ok(at) => Some(self.rates[self.by_pair[at] as usize].rate),
            Err(_) => None,
        }
    }

    fn has_pair(&self, rate: &RateTerms) -> bool
        ensures { result ≡ has_pair rate.now self.now }
    {
        search_pair(&self.rates, &self.by_pair, (rate.from, rate.to)).is_ok()
    }

    fn names(&self, number: PeerNo) -> bool
        ensures { result ≡ list_any (names_peer number) self.now }
    {
        self.rates
            .iter()
            .any(|rate| rate.from == number || rate.to == number)
    }

    // An error leaves the rates as they were.
    fn set(&mut self, rate: &RateTerms) -> Result<(), AllocError>
        requires { has_pair rate.now self.old ≡ false → length self.old < max_rates }
        ensures set { OnOk result (self.new ≡ rates_with rate.now self.old) }
        ensures unchanged { OnErr result (self.new ≡ self.old) }
    {
        let at = match search_pair(&self.rates, &self.by_pair, (rate.from, rate.to)) {
            Ok(at) => {
                let place = self.by_pair[at] as usize;
                self.rates[place] = *rate;
                return Ok(());
            }
            Err(at) => at,
        };
        let place = self.rates.len();
        self.by_pair.reserve(1)?;
        self.rates.push(*rate)?;
        let _ = self.by_pair.insert(at, place as u16);
        Ok(())
    }

    fn drop_named(&mut self, number: PeerNo)
        ensures { self.new ≡ rates_without number self.old }
    {
        drop_rates(&mut self.rates, number);
        order_by_pair(&self.rates, &mut self.by_pair);
    }
}

/// The rates between peers, in the order in which each pair first had one. Copies share them until one is changed.
#[derive(Drop)]
pub struct Rates {
    alloc: Global,
    // None before the first rate is set.
    list: Option<Arc<RateList>>,
}

impl Model for Rates {
    ghost use Rattle.std.specs.Prelude.{List, []};
    ghost use Rattle.std.specs.Arc.{arc_value};
    ghost use Rattle.std.specs.Option.{option_map_or};
    ghost use Rattle.tenant_core.specs.declared.terms.RateTerms.{RateTerms};

    ghost Value = { List RateTerms };

    ghost view = { λ r. option_map_or arc_value r.list [] };
}

impl Rates {
    ghost use Rattle.std.specs.Prelude.{[]};

    /// No rates. It allocates nothing.
    pub fn new(alloc: Global) -> Rates
        ensures { result ≡ [] }
    {
        Rates { alloc, list: None }
    }

    /// The same rates, which both hold. Fails only if the owners can't be counted any more.
    pub fn share(&self) -> Result<Rates, AllocError>
        ensures { IfOk result (λ rates. rates ≡ self.now) }
    {
        let list = match &self.list {
            Some(list) => Some(Arc::try_clone(list)?),
            None => None,
        };
        Ok(Rates {
            alloc: self.alloc,
            list,
        })
    }

    /// The rates, one for an ordered pair.
    pub fn as_slice(&self) -> &[RateTerms]
        ensures value { result.now ≡ self.now }
        ensures apart { ArePairsApart self.now }
    {
        match &self.list {
            Some(list) => list.as_slice(),
            None => &[],
        }
    }

    /// The rate of an ordered pair of peers.
    pub fn between(&self, from: PeerNo, to: PeerNo) -> Option<Rate>
        ensures { result ≡ option_map (λ r. r.rate) (find (is_for_pair from to) self.now) }
    {
        match &self.list {
            Some(list) => list.between(from, to),
            None => None,
        }
    }

    /// Whether the pair of the rate has one.
    pub fn has_pair(&self, rate: &RateTerms) -> bool
        ensures { result ≡ has_pair rate.now self.now }
    {
        match &self.list {
            Some(list) => list.has_pair(rate),
            None => false,
        }
    }

    /// Sets the rate, in place of the one for its pair if there is one. A rate for another pair has room. Fails only if
    /// it is out of memory, and leaves the rates as they were.
    pub fn set(&mut self, rate: &RateTerms) -> Result<(), AllocError>
        requires { has_pair rate.now self.old ≡ false → length self.old < max_rates }
        ensures set { OnOk result (self.new ≡ rates_with rate.now self.old) }
        ensures unchanged { OnErr result (self.new ≡ self.old) }
    {
        if let Some(list) = &mut self.list {
            return Arc::make_mut(list)?.set(rate);
        }
        let mut list = RateList::new(self.alloc);
        list.set(rate)?;
        self.list = Some(Arc::new(self.alloc, list)?);
        Ok(())
    }

    /// Drops the rates that name the peer. Fails only if they are shared and it is out of memory, and leaves them as
    /// they were.
    pub fn drop_named(&mut self, number: PeerNo) -> Result<(), AllocError>
        ensures dropped { OnOk result (self.new ≡ rates_without number self.old) }
        ensures unchanged { OnErr result (self.new ≡ self.old) }
    {
        let Some(list) = &mut self.list else {
            return Ok(());
        };
        if !list.names(number) {
            return Ok(());
        }
        Arc::make_mut(list)?.drop_named(number);
        Ok(())
    }
}
