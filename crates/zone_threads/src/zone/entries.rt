//! How a home takes a CPU and returns it.

ghost use Rattle.std.specs.Prelude.{MatchResult};
ghost use Rattle.zone_threads.specs.Homes.{IfNotEntered, IfNotLeft, ParksCpu, TakesCpu};

use crate::home::{Home, NotEntered, NotLeft};
use cpu_part::BootName;

/// Shows that a CPU was returned. Only `Home::leave` makes one.
#[derive(Drop)]
pub struct Returned {
    made: (),
}

impl<N: BootName> Home<N> {
    /// Takes the part of the CPU of this number, from 1. The home shows what was put back behind the lock.
    pub fn enter(&mut self, number: u32) -> Result<(), NotEntered>
        ensures { MatchResult result
            (λ _. TakesCpu number self.old self.new)
            (λ reason. IfNotEntered N.table.cpus number self.old reason self.new) }
    {
        if self.cpu.is_some() {
            return Err(NotEntered::HasCpu);
        }
        let zone = &*self.zone;
        if number == 0 || number > zone.tables.words.cpus() {
            return Err(NotEntered::NoCpu);
        }
        let Some((mut behind, loan)) = zone.lock.take() else {
            return Err(NotEntered::Busy);
        };
        let found = behind.unpark(number);
        let change = zone.lock.put_back(behind, loan);
        self.change = Some(change);
        let Some(cpu) = found else {
            return Err(NotEntered::Out);
        };
        let old = std::mem::replace(&mut self.cpu, Some(cpu));
        let None = old else { unreachable!() };
        Ok(())
    }

    /// Parks the CPU as it is, with its list, stock and pins: who takes it next goes on with them. The home shows what was
    /// put back behind the lock.
    pub fn leave(&mut self) -> Result<Returned, NotLeft>
        ensures { MatchResult result
            (λ _. ParksCpu self.old self.new)
            (λ reason. IfNotLeft self.old reason self.new) }
    {
        let zone = &*self.zone;
        let Some(cpu) = std::mem::replace(&mut self.cpu, None) else {
            return Err(NotLeft::NoCpu);
        };
        let Some((mut behind, loan)) = zone.lock.take() else {
            let old = std::mem::replace(&mut self.cpu, Some(cpu));
            let None = old else { unreachable!() };
            return Err(NotLeft::Busy);
        };
        let returned = behind.park(cpu);
        let change = zone.lock.put_back(behind, loan);
        let Some(cpu) = returned else {
            self.change = Some(change);
            return Ok(Returned { made: () });
        };
        let old = std::mem::replace(&mut self.cpu, Some(cpu));
        let None = old else { unreachable!() };
        Err(NotLeft::Busy)
    }
}
