// Form making on lists: skeleton trees and the steps that contract them (source document 000, section 6).
