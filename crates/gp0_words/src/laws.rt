//! Facts about every list of words. Each is the contract of an empty function.
ghost use Rattle.gp0_words.specs.Cutting.{PacketsAreCut, IsPrefixFree, PacketsHaveTheirItems, AllIsCutUp};
ghost use Rattle.gp0_words.specs.Resuming.{WhatMayBePending, RestDecides};

/// A packet at the front of a list of words is cut off whole: its items come first, and the words after it decide what
/// is pending. No packet is a proper prefix of another, so a list of words is cut in only one way.
pub fn packets_are_cut()
    ensures cut { PacketsAreCut }
    ensures prefix { IsPrefixFree }
{}

/// Every list of words is a sequence of packets and then a proper prefix of one, or nothing. The items of a packet
/// depend on its kind: its first words, then its data words, or its joints and its end.
pub fn words_are_packets()
    ensures all { AllIsCutUp }
    ensures items { PacketsHaveTheirItems }
{}

/// The bounds of what is pending are exact: some list of words leads to each value within them, and none to any other.
/// What is pending and the next word decide the item that the word completes and what is pending after it.
pub fn rest_decides()
    ensures bounds { WhatMayBePending }
    ensures decides { RestDecides }
{}
