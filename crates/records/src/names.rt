// The names that reads say they saw: one for each action, by its thread and its place there, and one for the write that
// each location has by default.
ghost use Rattle.std.specs.Prelude.{◌≡◌};
ghost use Rattle.records.specs.Names.{named as name_at, default};

// The name of the action at a place of a thread.
pub fn named(thread: u8, place: u8) -> u16
    ensures { result ≡ name_at thread place }
{
    u16::from(thread) * 64 + u16::from(place)
}

// The name of a location's default write.
pub fn default_write(location: u8) -> u16
    ensures { result ≡ default location }
{
    512 + u16::from(location)
}
