// The states of a draft, its life, and the law of exchange over any drafts whose calls keep to these words.
#![tactic(auto)]

ghost use Rattle.lives.specs.Exchange.{ExchangeLaw};

pub mod states;

pub fn moments_law()
    ensures { ExchangeLaw }
{}
