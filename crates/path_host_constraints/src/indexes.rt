//! Lists that are replaced, and lists that are kept in several indexes, behind a certificate.

ghost use Rattle.std.specs.Prelude.{◌≡◌, ◌<◌, vec_len, vec_capacity};
ghost use Rattle.path_host_constraints.specs.Indexes.{with_joined};
ghost use Rattle.path_host_constraints.specs.Lists.{changed};

/// An index that takes the place of all indexes from a place on.
#[derive(Drop)]
pub(crate) struct Joined<I> {
    pub(crate) lasting: usize,
    pub(crate) index: I,
}

/// Puts a new list in place, if there is one.
pub(crate) fn replace<L: Drop>(list: &mut Option<L>, change: Option<L>)
    ensures { list.new ≡ changed list.old change }
{
    if let Some(change) = change {
        *list = Some(change);
    }
}

/// Puts the index in place, if there is one. No memory is asked for, since there is room for one more.
pub(crate) fn put<I: Drop>(indexes: &mut Vec<I>, joined: Option<Joined<I>>)
    requires { vec_len indexes.old < vec_capacity indexes.old }
    ensures { indexes.new.items ≡ with_joined joined indexes.old.items }
{
    if let Some(joined) = joined {
        let Joined { lasting, index } = joined;
        indexes.truncate(lasting);
        match indexes.push(index) {
            Ok(()) => {}
            Err(_) => unreachable!(),
        }
    }
}
