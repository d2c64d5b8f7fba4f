// The guarantees: the three points (README.md, "What is proved") as theorems about the model, points 2 and 3 about lists of calls.
// Each function here runs nothing; its `ensures` is the statement that the check has to prove.
#![tactic(auto)]

ghost use Rattle.guarantees.specs.Points.{Point1, Points23, FormatPoints, NoSliceTwice};
ghost use Rattle.guarantees.specs.StartPlaces.{StartPlaces};
ghost use Rattle.guarantees.specs.GivenBack.{SlicesGivenBack};

// Point 1: any call with any arguments is served or refused by the first listed refusal that applies, and what it stores and
// leaves follows from its answer.
pub fn point_one()
    ensures { Point1 }
{}

// Points 2 and 3, from a served opening on.
pub fn points_two_and_three()
    ensures { Points23 }
{}

// Formatting: the device opens with each of its keys to volumes of zeros, and points 2 and 3 hold from there on.
pub fn formatted_sticks()
    ensures { FormatPoints }
{}

// The start place: while every write and release is handed the opening's permutation, no slice at an earlier place is free, and a claim
// takes what it would take from place 0 on; with any permutations, the places looked at over one session, claims refused by 5 or 21 left
// out, are at most P times one more than its releases.
pub fn start_places()
    ensures { StartPlaces }
{}

// A released slice: its blocks read as zeros, its bytes stay on the device, and a claim may take it and shows none of them.
pub fn slices_given_back()
    ensures { SlicesGivenBack }
{}

// The accident of the case: over every list of calls no slice is held twice, and a claim takes a slice that nobody holds.
pub fn no_slice_twice()
    ensures { NoSliceTwice }
{}
