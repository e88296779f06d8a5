// Number i of a plane; none where the slice has no such place: no length has to be asked for.
pub fn get<T: Copy>(s: &[T], plane: usize, i: usize) -> Option<T> {
    s.get(plane.checked_add(i)?).copied()
}

// Another number at place i of a plane; nothing where the slice has no such place.
pub fn set<T: Copy>(s: &mut [T], plane: usize, i: usize, v: T) {
    if let Some(at) = plane.checked_add(i) {
        if at < s.len() {
            s[at] = v;
        }
    }
}
