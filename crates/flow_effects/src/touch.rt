// What a phrase does to one local.

ghost use Rattle.std.specs.Prelude.{◌≡◌};
ghost use Rattle.flow_summaries.specs.Effects as rules;
ghost use Rattle.flow_summaries.specs.Passages as rules_of_faults;
ghost use Rattle.flow_effects.specs.Touches.{caused_of, effect_of, idle_touch, joined, touch_of};

use check_faults::{Fault, sooner};

/// What a phrase does to the state of a local that can't be copied.
#[derive(Clone, Copy)]
pub enum Effect {
    Keeps,
    /// Leaves it held, unless it is lent.
    Holds,
    /// Leaves it gone, unless it is lent.
    Loses,
    /// Leaves it gone on one path, and keeps it on another.
    MayLose,
}

/// The earliest fault that a local causes, for each state that it may be in before the phrase.
#[derive(Clone, Copy)]
pub struct Caused {
    pub plain: Option<Fault>,
    pub held: Option<Fault>,
    pub gone: Option<Fault>,
    pub lent: Option<Fault>,
}

/// What a phrase does to one local: the effect and the faults.
#[derive(Clone, Copy)]
pub struct Touch {
    pub effect: Effect,
    pub caused: Caused,
}

/// How two phrases are joined at one local. The first of them is the argument `first` of `joined`.
#[derive(Clone, Copy)]
pub enum How {
    /// The first phrase and then the second one.
    Turn,
    /// The effect of the first and then the second; the faults of the second alone, which come after that of the first.
    After,
    /// The effects of two paths that join; the faults of the second alone.
    Meet,
    /// As Meet, with the effect of the second taken first.
    MetBy,
    /// The effect of the second and then that of the first; the faults of the second alone.
    Before,
    /// Two paths; the ends of both are reached.
    EachWay,
    /// Two paths; only the end of the first is reached.
    FirstWay,
    /// Two paths; only the end of the second is reached.
    LastWay,
    /// The effect of the first, and the faults of the second.
    Pair,
    /// The second is a loop's body, which begins after the first or after an iteration.
    Head,
}

impl Effect {
    /// The effect of this and then the next one.
    fn then(self, next: Effect) -> Effect
        ensures { effect_of result ≡ rules.then_effect (effect_of self) (effect_of next) }
    {
        match (self, next) {
            (first, Effect::Keeps) => first,
            (_, Effect::Holds) => Effect::Holds,
            (_, Effect::Loses) => Effect::Loses,
            (Effect::Keeps | Effect::MayLose, Effect::MayLose) => Effect::MayLose,
            (Effect::Holds | Effect::Loses, Effect::MayLose) => Effect::Loses,
        }
    }

    /// The effect where two paths join.
    fn met(self, other: Effect) -> Effect
        ensures { effect_of result ≡ rules.met_effect (effect_of self) (effect_of other) }
    {
        match (self, other) {
            (Effect::Keeps, Effect::Keeps | Effect::Holds) => Effect::Keeps,
            (Effect::Keeps, Effect::Loses | Effect::MayLose) => Effect::MayLose,
            (Effect::Holds, met) => met,
            (Effect::Loses, _) => Effect::Loses,
            (Effect::MayLose, _) => Effect::MayLose,
        }
    }
}

impl Caused {
    /// No fault in any state.
    pub fn none() -> Caused
        ensures { caused_of result ≡ rules_of_faults.no_cause }
    {
        Caused {
            plain: None,
            held: None,
            gone: None,
            lent: None,
        }
    }

    /// The earlier fault of two phrases that begin in the same state.
    fn with(self, other: Caused) -> Caused
        ensures { caused_of result ≡ rules_of_faults.both_caused (caused_of self) (caused_of other) }
    {
        Caused {
            plain: sooner(self.plain, other.plain),
            held: sooner(self.held, other.held),
            gone: sooner(self.gone, other.gone),
            lent: sooner(self.lent, other.lent),
        }
    }

    /// The faults of a phrase that comes after this effect.
    fn after(self, effect: Effect) -> Caused
        ensures { caused_of result ≡ rules_of_faults.caused_after (effect_of effect) (caused_of self) }
    {
        match effect {
            Effect::Keeps => self,
            Effect::Holds => Caused {
                plain: self.held,
                gone: self.held,
                ..self
            },
            Effect::Loses => Caused {
                plain: self.gone,
                held: self.gone,
                ..self
            },
            Effect::MayLose => Caused {
                held: self.gone,
                ..self
            },
        }
    }
}

impl Touch {
    /// Nothing is done to the local.
    pub fn none() -> Touch
        ensures { touch_of result ≡ idle_touch }
    {
        Touch {
            effect: Effect::Keeps,
            caused: Caused::none(),
        }
    }
}

impl How {
    /// What both phrases, joined in this way, do to a local.
    pub fn joined(self, first: Touch, next: Touch) -> Touch
        ensures { touch_of result ≡ joined self (touch_of first) (touch_of next) }
    {
        match self {
            How::Turn => Touch {
                effect: first.effect.then(next.effect),
                caused: first.caused.with(next.caused.after(first.effect)),
            },
            How::After => Touch {
                effect: first.effect.then(next.effect),
                caused: next.caused.after(first.effect),
            },
            How::Meet => Touch {
                effect: first.effect.met(next.effect),
                caused: next.caused,
            },
            How::MetBy => Touch {
                effect: next.effect.met(first.effect),
                caused: next.caused,
            },
            How::Before => Touch {
                effect: next.effect.then(first.effect),
                caused: next.caused,
            },
            How::EachWay => Touch {
                effect: first.effect.met(next.effect),
                caused: first.caused.with(next.caused),
            },
            How::FirstWay => Touch {
                effect: first.effect,
                caused: first.caused.with(next.caused),
            },
            How::LastWay => Touch {
                effect: next.effect,
                caused: first.caused.with(next.caused),
            },
            How::Pair => Touch {
                effect: first.effect,
                caused: next.caused,
            },
            How::Head => {
                let effect = first.effect.met(next.effect);
                Touch {
                    effect,
                    caused: next.caused.after(effect),
                }
            }
        }
    }
}
