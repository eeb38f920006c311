//! Laws of the reading of lines.

ghost use Rattle.line_stream.specs.BodyLaws as body;
ghost use Rattle.line_stream.specs.Laws as law;
ghost use Rattle.line_stream.specs.Outcomes as outcome;
ghost use Rattle.line_stream.specs.Streams as stream;

/// Behind the head of a chunked body no line stands yet; who stands in some bytes stands in them and those taken,
/// with the same lines or with the one that was read; and a line is read in one way, however the bytes came in
/// pieces.
pub fn lines_are_read_in_one_way()
    ensures begin { law.BodiesBegin }
    ensures parts { law.PartsGoOn }
    ensures lines { law.LinesGoOn }
    ensures determined { law.LinesAreDetermined }
{}

/// A stream of lines, each in a chunk of its own, stands with these lines; and a reader that stands in a beginning of
/// it stands with the first of them, with all where the body is over.
pub fn streams_are_read_back()
    ensures stand { stream.StreamsStand }
    ensures read { stream.StreamsReadBack }
{}

/// Of the lines that stand in some bytes, and in them and those that follow, the ones begin the others.
pub fn readings_agree()
    ensures { stream.ReadingsAgree }
{}

/// From a reader, over some bytes, the reading of a line has one outcome: the line, the end of the body or one refusal;
/// and it has that one however the bytes came in pieces.
pub fn outcomes_agree()
    ensures { outcome.OutcomesAgree }
{}

/// Bytes that begin with a whole reply of code 200 have one body, and bytes that follow don't change it.
pub fn bodies_are_read_in_one_way()
    ensures { body.BodiesAreDetermined }
{}
