//! Roles by their names.
use crate::parts::Parts;

impl Parts {
    ghost use Rattle.std.specs.Prelude.{◌≡◌, ◌<◌, ◌^◌, length};
    ghost use Rattle.std.specs.Str.{bytes_eq};
    ghost use Rattle.std.specs.List.{position_from};

    /// The number of the role with this name.
    pub(crate) fn role_of(&self, name: &[u8]) -> Option<u32>
        requires { length self.now.roles.items < 2 ^ 32 }
        ensures { result ≡ position_from (λ y. bytes_eq y name.now) 0 self.now.roles.items }
    {
        for (i, role) in self.roles.iter().enumerate() {
            if role.as_str().as_bytes() == name {
                return Some(i as u32);
            }
        }
        None
    }
}
