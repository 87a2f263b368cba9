//! Laws of the weight of tables, which bounds the new records that they use. Each function does nothing; its contract is a law.

ghost use Rattle.stored_tables.specs.Weights.{SparesWithinWeight, CommandAdds, RunAdds, AddsByNumbers, AddsAfter, RoomToAsk, RoomAfterRun, RecordLeft, EmptyWeighsNothing};
ghost use Rattle.stored_tables.specs.Packed.{RowsPack};

/// Tables use no more new records than they weigh.
pub fn spares_within_weight()
    ensures { SparesWithinWeight }
{}

/// A command adds no more to the weight than is said of it.
pub fn command_adds()
    ensures { CommandAdds }
{}

/// Nor do the commands of a block together.
pub fn run_adds()
    ensures { RunAdds }
{}

/// Commands add 4 for each row that one may bring, and 2 for each entry of an index.
pub fn adds_by_numbers()
    ensures { AddsByNumbers }
{}

/// What other commands add is the same before a block and after it.
pub fn adds_after()
    ensures { AddsAfter }
{}

/// Whenever a block asks for a new record: those that were present where it began, with all that it asked for up to now, are no more than
/// the weight there and what its commands add.
pub fn room_to_ask()
    ensures { RoomToAsk }
{}

/// And so with all that it asked for once it is over.
pub fn room_after_run()
    ensures { RoomAfterRun }
{}

/// So where there are as many new records, one is left for each ask.
pub fn record_left()
    ensures { RecordLeft }
{}

/// Where nothing is present, the weight is 0.
pub fn empty_weighs_nothing()
    ensures { EmptyWeighsNothing }
{}

/// Tables into which rows were only put, each once, weigh two for each row at most.
pub fn rows_pack()
    ensures { RowsPack }
{}
