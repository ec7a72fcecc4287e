// One numbered refusal, with its place, which is 0 also where there is none. The number may be any, as in the definition `refusal` and for C,
// so it is no `Reason`.
#[derive(Clone, Copy, Debug, PartialEq, Eq)]
pub struct Refusal {
    pub number: u8,
    pub place: u8,
}
