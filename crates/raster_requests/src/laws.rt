//! What holds of requests. The functions do nothing; their contracts are laws.
ghost use Rattle.raster_requests.specs.Laws.{DataAreNotRead, RequestsAreAsWritten, WholeValuesAreKept};
ghost use Rattle.raster_requests.specs.Laws.{DataAreRoundedAlike};

/// The data of a command do not change what it asks.
pub fn data_are_not_read()
    ensures { DataAreNotRead }
{}

/// A place has the value that is written, and is relative if that has a sign. What is asked of data has data.
pub fn requests_are_as_written()
    ensures { RequestsAreAsWritten }
{}

/// Whole values in range are kept.
pub fn whole_values_are_kept()
    ensures { WholeValuesAreKept }
{}

/// How many bytes of data a command has is its value, rounded as every other one. Below 0 it has none.
pub fn data_are_rounded_alike()
    ensures { DataAreRoundedAlike }
{}
