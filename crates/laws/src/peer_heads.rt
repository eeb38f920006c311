//! The laws.

ghost use Rattle.laws.specs.PeerHeads as heads;

/// The head of a peer's answer is read in one way: where a chunked body begins, it begins once and isn't refused, two
/// refusals of a head are one, and bytes that follow change neither. A head that isn't whole yet isn't refused, but for
/// more than 64 fields: that may be told as a refusal or as an end within the head.
pub fn heads_have_one_reading()
    ensures begin { heads.BodiesBeginOnce }
    ensures begun { heads.BegunIsNotRefused }
    ensures stay { heads.HeadRefusalsStay }
    ensures agree { heads.HeadRefusalsAgree }
    ensures unfinished { heads.OpenIsNotRefused }
{}
