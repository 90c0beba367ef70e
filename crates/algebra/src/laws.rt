//! What holds of every command, and what the results are for, as contracts to cite: each function does nothing and
//! promises one law.
ghost use Rattle.algebra.specs.Laws.{ComesToOne, ComposedInTurn, MetBothWays, TakenBack, MadeAnew};

/// A command comes to one thing at most.
pub fn comes_to_one()
    ensures { ComesToOne }
{}

/// What composing gives does what the two do in turn.
pub fn composed_in_turn()
    ensures { ComposedInTurn }
{
    compose::laws::composes_by_normal();
}

/// Two deltas of one document, each transformed past the other, lead to one document.
pub fn met_both_ways()
    ensures { MetBothWays }
{
    delta::laws::effect_of_normal();
    delta::laws::units_counted();
    xform::laws::both_ways();
}

/// What inverting gives leads back to the document.
pub fn taken_back()
    ensures { TakenBack }
{
    compose::laws::undone();
    delta::laws::effect_of_normal();
}

/// What applying gives makes the document after the delta.
pub fn made_anew()
    ensures { MadeAnew }
{
    delta::laws::effect_of_normal();
}
