// What holds of the definitions, so that they can be seen to mean what they should.
ghost use Rattle.grammar.specs.Laws.{OneFormula, ScanDerives};
ghost use Rattle.grammar.specs.Samples.{Samples};

// No text is two formulas.
pub fn one_formula()
    ensures { OneFormula }
{}

// A text is granted exactly when it is a formula.
pub fn scan_derives()
    ensures { ScanDerives }
{}

// The samples are as the definitions say.
pub fn samples_hold()
    ensures { Samples }
{}
