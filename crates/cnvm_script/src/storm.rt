//! A generator of scripts: rounds of calls, some of them cut by a power failure.

ghost use Rattle.std.specs.Prelude.{◌≡◌, ◌<◌, ◌≤◌, ◌+◌, ◌*◌, ◌%◌, ◌^◌, ◌∷◌, ◌++◌, [], pos, IfOk};
ghost use Rattle.std.specs.Prelude.{OnOk, OnErr, Some, length};
ghost use Rattle.c_types.specs.Shapes.{transactions_of};
ghost use Rattle.cnvm_script.specs.Storm.{next_draw, drawn, after_draws, is_cut, chosen, arguments};
ghost use Rattle.cnvm_script.specs.Storm.{cut_at, power, cut_round, round, after_round};
ghost use Rattle.cnvm_script.specs.Storm.{storm_round, storm_after};
ghost use Rattle.cnvm_script.specs.declared.command.Command.TheVariants.{Call};

use crate::command::{Command, Script};
use c_types::Typed;
use cache_model::{Choice, Picks, Rest};
use nvm_base::{Text, Words};
use std::alloc::{AllocError, Global};
use std::marker::Model;

/// The state of the generator.
#[derive(Drop)]
pub struct Storm {
    state: u32,
}

impl Model for Storm {
    ghost use Rattle.std.specs.Prelude.{ℕ};

    ghost Value = { ℕ };

    ghost view = { λ s. s.state };
}

/// The choice that the first two draws of a round make.
#[derive(Clone, Copy)]
struct Chosen {
    /// Whether the power fails in the round.
    cut: bool,
    /// The transaction's number, counted from 1.
    transaction: u64,
}

impl Storm {
    /// The generator that starts at this number.
    pub fn new(start: u32) -> Storm
        ensures { result ≡ start }
    {
        Storm { state: start }
    }

    /// The commands of the next round, over the transactions of the program; its cut comes after
    /// fewer events than `reach`. Where memory lacks, the generator stands where it stood.
    pub fn round(&mut self, alloc: Global, typed: &Typed, reach: u64) -> Result<Script, AllocError>
        requires some { 0 < length (transactions_of typed.now) }
        requires reach { 1 ≤ reach }
        ensures commands { IfOk result (λ script.
            Some script ≡ storm_round reach self.old (transactions_of typed.now)) }
        ensures state { OnOk result (Some self.new ≡ storm_after self.old
            (transactions_of typed.now)) }
        ensures err { OnErr result (self.new ≡ self.old) }
    {
        let mut next = Storm { state: self.state };
        let script = next.draw_round(alloc, typed, reach)?;
        self.state = next.state;
        Ok(script)
    }

    /// The same. After an error some of the round's draws are made.
    fn draw_round(&mut self, alloc: Global, typed: &Typed, reach: u64) -> Result<Script, AllocError>
        requires some { 0 < length (transactions_of typed.now) }
        requires reach { 1 ≤ reach }
        ensures commands { IfOk result (λ script.
            Some script ≡ storm_round reach self.old (transactions_of typed.now)) }
        ensures state { OnOk result (Some self.new ≡ storm_after self.old
            (transactions_of typed.now)) }
    {
        let chosen = self.choose(typed.txs());
        let name = typed.tx_name(chosen.transaction);
        let parameters = typed.parameters(chosen.transaction);
        self.round_of(alloc, chosen.cut, name, parameters, reach)
    }

    /// The choice of a round, among the transactions.
    fn choose(&mut self, transactions: u64) -> Chosen
        requires { 0 < transactions }
        ensures cut { result.cut ≡ is_cut self.old }
        ensures first { 1 ≤ result.transaction }
        ensures last { result.transaction ≤ transactions }
        ensures transaction { result.transaction ≡ chosen self.old transactions }
        ensures state { self.new ≡ next_draw (next_draw self.old) }
    {
        let cut = self.draw() % 4 == 2;
        let transaction = 1 + self.draw() % transactions;
        Chosen { cut, transaction }
    }

    /// The commands of a round whose choice is made, for a transaction with this name and this
    /// number of parameters. After an error some of its draws have been made.
    fn round_of(
        &mut self,
        alloc: Global,
        cut: bool,
        name: &str,
        parameters: u64,
        reach: u64,
    ) -> Result<Script, AllocError>
        requires { 1 ≤ reach }
        ensures commands { IfOk result (λ script.
            script ≡ round reach self.old cut name.now parameters) }
        ensures state { OnOk result (self.new ≡ after_round self.old cut parameters) }
    {
        let call = self.call(alloc, name, parameters)?;
        if cut {
            return self.cut_round(alloc, call, reach);
        }
        let mut script = Script::new(alloc);
        script.push(call)?;
        Ok(script)
    }

    fn draw(&mut self) -> u64
        ensures value { result ≡ drawn self.old }
        ensures state { self.new ≡ next_draw self.old }
        ensures small { result < 2 ^ 15 }
    {
        let next = (1_103_515_245 * self.state as u64 + 12_345) % (1 << 31);
        self.state = next as u32;
        next / 65_536
    }

    fn call(&mut self, alloc: Global, name: &str, parameters: u64) -> Result<Command, AllocError>
        ensures call { IfOk result (λ call. call ≡ Call name.now (arguments self.old parameters)) }
        ensures state { OnOk result (self.new ≡ after_draws self.old parameters) }
    {
        let args = self.arguments(alloc, parameters)?;
        let mut text = Text::new(alloc);
        text.push(name)?;
        Ok(Command::Call { name: text, args })
    }

    fn arguments(&mut self, alloc: Global, parameters: u64) -> Result<Words, AllocError>
        ensures arguments { IfOk result (λ args. args ≡ arguments self.old parameters) }
        ensures state { OnOk result (self.new ≡ after_draws self.old parameters) }
    {
        let mut args = Words::new(alloc);
        for _ in 0..parameters {
            self.push_argument(&mut args)?;
        }
        Ok(args)
    }

    #[tactic(auto, using(std::proofs::lemmas::Int::wraps))]
    fn push_argument(&mut self, args: &mut Words) -> Result<(), AllocError>
        ensures argument { OnOk result (args.new ≡ args.old ++ pos (drawn self.old % 16) ∷ []) }
        ensures state { self.new ≡ next_draw self.old }
    {
        args.push((self.draw() % 16) as i64)?;
        Ok(())
    }

    fn cut_round(&mut self, alloc: Global, call: Command, reach: u64) -> Result<Script, AllocError>
        requires { 1 ≤ reach }
        ensures commands { IfOk result (λ script. script ≡ cut_round reach self.old call) }
        ensures state { OnOk result (self.new ≡ next_draw (next_draw self.old)) }
    {
        let mut script = Script::new(alloc);
        script.push(Command::Stop(self.cut_at(reach)))?;
        script.push(call)?;
        script.push(Command::Stop(4_294_967_295))?;
        script.push(self.power(alloc))?;
        Ok(script)
    }

    /// After how many events the power goes off. A draw tells a number below 32,768 alone.
    fn cut_at(&mut self, reach: u64) -> u64
        requires { 1 ≤ reach }
        ensures value { result ≡ cut_at reach self.old }
        ensures state { self.new ≡ next_draw self.old }
    {
        let drawn = self.draw();
        if reach <= 32_768 {
            return drawn % reach;
        }
        self.state as u64 / 1_024 % reach
    }

    fn power(&mut self, alloc: Global) -> Command
        ensures power { result ≡ power self.old }
        ensures state { self.new ≡ next_draw self.old }
    {
        let picks = Picks::new(alloc);
        if self.draw() % 2 == 0 {
            return Command::Power(Choice {
                rest: Rest::Old,
                picks,
            });
        }
        Command::Power(Choice {
            rest: Rest::New,
            picks,
        })
    }
}
