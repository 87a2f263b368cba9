//! Blocks that can be run over eight tables.

ghost use Rattle.std.specs.Prelude.{◌<◌, All};
ghost use Rattle.replay_model.specs.Input.{AreCommands, NamesColumn};
ghost use Rattle.replay_model.specs.Report.{table_named};
ghost use Rattle.stored_tables.specs.Answers.{IsShort};

use replay_model::{Block, Command, Commands};
use std::alloc::Global;
use std::marker::Model;
use std::test::Fail;

/// A transaction block of at most 64 commands over eight tables, whose lists are short.
#[derive(Drop)]
pub struct Script {
    block: Block,
}

impl Model for Script {
    ghost use Rattle.std.specs.Prelude.{List, All};
    ghost use Rattle.replay_model.specs.declared.command.Command.{Command};
    ghost use Rattle.replay_model.specs.Input.{AreCommands};
    ghost use Rattle.stored_tables.specs.Answers.{IsShort};

    ghost Value = { List Command };

    ghost view = { λ a. a.block.commands };

    ghost invariant = { λ a. AreCommands 8 a.block.commands × All IsShort a.block.commands };
}

impl Script {
    pub fn new(alloc: Global) -> Self {
        let block = Block {
            snap: false,
            lane: 1,
            number: 1,
            commands: Commands::new(alloc),
        };
        Script { block }
    }

    /// The script, where what was to fill it did.
    pub fn if_filled(self, filled: Result<(), Fail>) -> Result<Script, Fail> {
        match filled {
            Ok(()) => Ok(self),
            Err(fail) => {
                drop(self);
                Err(fail)
            }
        }
    }

    /// Appends a command.
    pub fn push(&mut self, command: Command) -> Result<(), Fail>
        requires table { table_named command < 8 }
        requires column { NamesColumn command }
        requires short { IsShort command }
    {
        if self.block.commands.len() >= 64 {
            return Err("a block has at most 64 commands".into());
        }
        self.block.commands.push(command)?;
        Ok(())
    }

    pub fn block(&self) -> &Block
        ensures commands { AreCommands 8 result.now.commands }
        ensures short { All IsShort result.now.commands }
    {
        &self.block
    }
}
