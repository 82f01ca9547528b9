//! What holds of what is woven.
ghost use Rattle.woven_traces.specs.Woven.{OthersHaveNoByte, WovenAlone, WovenBytes, WovenWhole};

/// However streams are woven, each comes out whole and in its own order, where their IDs are apart; and nothing else does.
pub fn each_stream_is_woven_whole()
    ensures whole { WovenWhole }
    ensures alone { WovenAlone }
    ensures others { OthersHaveNoByte }
    ensures bytes { WovenBytes }
{}
