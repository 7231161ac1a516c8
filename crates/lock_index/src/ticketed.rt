ghost use Rattle.std.specs.Prelude.{◌≡◌, ℕ};

/// What has a ticket in a session.
pub trait Ticketed: Drop {
    ghost session: { Self → ℕ };

    ghost ticket: { Self → ℕ };

    fn session(&self) -> u64
        ensures { result ≡ session self.now };

    fn ticket(&self) -> u32
        ensures { result ≡ ticket self.now };
}
