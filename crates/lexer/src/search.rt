// The search by name, in any table whose entries have a name.
ghost use Rattle.std.specs.Prelude.{◌≡◌, ℕ, ◌<◌, List, map, length, IfSome};
ghost use Rattle.std.specs.Str.{bytes_eq};
ghost use Rattle.lexer.specs.Names.{First};

/// An entry of a table that has a name.
pub trait Named {
    ghost spelled: { Self → List ℕ };

    /// The bytes of its name.
    fn name(&self) -> &[u8]
        ensures { result.now ≡ spelled self.now };
}

fn is_named<T: Named>(entry: &T, name: &[u8]) -> bool
    ensures { result ≡ bytes_eq (T.Named.spelled entry.now) name.now }
{
    entry.name() == name
}

/// The index of the first entry with this name, if there is one.
pub fn find<T: Named>(table: &[T], name: &[u8]) -> Option<usize>
    ensures first { First (map T.Named.spelled table.now) name.now result }
    ensures bound { IfSome result (λ i. i < length table.now) }
{
    table.iter().position(|entry| is_named(entry, name))
}
