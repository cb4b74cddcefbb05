//! Laws of the machine over every list of events.
ghost use Rattle.std.specs.Prelude.{◌≡◌, [], ◌∷◌, None};
ghost use Rattle.amr_ranks.specs.declared.net.NetEvent.{NetEvent};
ghost use Rattle.amr_ranks.specs.Nets.{NetOf, after, next_of};
ghost use Rattle.amr_ranks.specs.Laws.{HasWhatCame, IsWholeWhenReady};

/// What holds after every list of posts and deliveries, each enabled or not, in any order and as often as may be: a rank has
/// just the letters that were delivered to it, and where it is ready, all that there are for it. It does nothing: it stands
/// for its contract.
pub fn every_list_of_events()
    ensures delivered { HasWhatCame }
    ensures ready { IsWholeWhenReady }
    ensures disabled { (c : NetOf) (e : NetEvent) → next_of c e ≡ None → after c (e ∷ []) ≡ c }
{}
